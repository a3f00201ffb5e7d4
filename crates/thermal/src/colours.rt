// Colours, and every dot of a buffer under one.
ghost use Rattle.std.specs.Prelude.{◌≡◌, ◌/◌, length};
ghost use Rattle.colour.specs.Colour.{with_alpha, blended, blended_at, multiplied, color_for_number};
ghost use Rattle.dots.specs.Dots.{change, within, drawn};

use colour::{RGBA, RenderColors};
use dots::draw_run;

#[unsafe(no_mangle)]
pub extern "C" fn thermal_with_alpha(color: RGBA, alpha: u8) -> RGBA
    ensures { result ≡ with_alpha color alpha }
{
    color.with_alpha(alpha)
}

#[unsafe(no_mangle)]
pub extern "C" fn thermal_blend_foreground(dot: RGBA, color: RGBA) -> RGBA
    ensures { result ≡ blended color dot }
{
    dot.blend_foreground(color)
}

#[unsafe(no_mangle)]
pub extern "C" fn thermal_blend_foreground_with_alpha(dot: RGBA, color: RGBA, alpha: u8) -> RGBA
    ensures { result ≡ blended_at alpha color dot }
{
    dot.blend_foreground_with_alpha(color, alpha)
}

#[unsafe(no_mangle)]
pub extern "C" fn thermal_multiply_foreground(dot: RGBA, color: RGBA) -> RGBA
    ensures { result ≡ multiplied color dot }
{
    dot.multiply_foreground(color)
}

#[unsafe(no_mangle)]
pub extern "C" fn thermal_color_for_number(colors: RenderColors, number: u8) -> RGBA
    ensures { result ≡ color_for_number colors number }
{
    colors.color_for_number(number)
}

// Every whole dot of a buffer under one colour, blending or multiplying.
#[unsafe(no_mangle)]
pub extern "C" fn thermal_draw_dots(dots: &mut [u8], color: RGBA, multiply: bool)
    ensures { dots.new ≡ change (within 0 (length dots.old / 4)) (λ _ s. drawn multiply color s) dots.old }
{
    let count = dots.len() / 4;
    draw_run(dots, 0, count, multiply, color);
}
