// Colour: a pixel and what one does to another, as in the Rust's graphics.rs, and the colours
// that an image's layers name, as in its context.rs. Values go in and values come out.
#![tactic(auto)]

pub mod channel;

ghost use Rattle.std.specs.Prelude.{◌≡◌, ◌⊎◌};
ghost use Rattle.colour.specs.Colour.{blank, white, with_alpha, color_for_number, blended_at, blended, multiplied};

use channel::{blend_channel, multiply_channel};

// A pixel: red, green, blue, and how opaque it is.
#[repr(C)]
#[derive(Clone, Copy, Debug, PartialEq, Eq)]
pub struct RGBA {
    pub r: u8,
    pub g: u8,
    pub b: u8,
    pub a: u8,
}

impl RGBA {
    pub const TRANSPARENT: u8 = 0;

    pub const OPAQUE: u8 = 255;

    pub const BLANK: RGBA = RGBA {
        r: 0,
        g: 0,
        b: 0,
        a: 0,
    };

    pub const WHITE: RGBA = RGBA {
        r: 255,
        g: 255,
        b: 255,
        a: 255,
    };

    pub fn blank() -> Self
        ensures { result ≡ blank }
    {
        RGBA::BLANK
    }

    pub fn white() -> Self
        ensures { result ≡ white }
    {
        RGBA::WHITE
    }

    pub fn with_alpha(self, a: u8) -> Self
        ensures { result ≡ with_alpha self a }
    {
        RGBA {
            r: self.r,
            g: self.g,
            // Blue takes green's value, as in the Rust: mending it would change every picture.
            b: self.g,
            a,
        }
    }

    pub fn blend_foreground(self, color: RGBA) -> Self
        ensures { result ≡ blended color self }
    {
        self.blend_foreground_with_alpha(color, color.a)
    }

    pub fn multiply_foreground(self, color: RGBA) -> Self
        ensures { result ≡ multiplied color self }
    {
        if color.a == RGBA::TRANSPARENT {
            return self;
        }
        RGBA {
            r: multiply_channel(self.r, color.r, color.a),
            g: multiply_channel(self.g, color.g, color.a),
            b: multiply_channel(self.b, color.b, color.a),
            a: self.a,
        }
    }

    pub fn blend_foreground_with_alpha(self, color: RGBA, alpha: u8) -> Self
        ensures { result ≡ blended_at alpha color self }
    {
        match alpha {
            1..=254 => RGBA {
                r: blend_channel(self.r, color.r, alpha),
                g: blend_channel(self.g, color.g, alpha),
                b: blend_channel(self.b, color.b, alpha),
                a: self.a,
            },
            _ => self.covered(color, alpha),
        }
    }

    // Blending where nothing is worked out. The dots of a bit image go either way at random, so
    // both ways meet here and the compiler makes a choice of it, and no branch.
    fn covered(self, color: RGBA, alpha: u8) -> Self
        requires { (alpha ≡ 0) ⊎ (alpha ≡ 255) }
        ensures { result ≡ blended_at alpha color self }
    {
        if alpha == RGBA::TRANSPARENT {
            return self;
        }
        RGBA {
            r: color.r,
            g: color.g,
            b: color.b,
            a: RGBA::OPAQUE,
        }
    }
}

// The colours that an image's layers name by number.
#[repr(C)]
#[derive(Clone, Copy, Debug, PartialEq, Eq)]
pub struct RenderColors {
    pub paper_color: RGBA,
    pub color_1: RGBA,
    pub color_2: RGBA,
    pub color_3: RGBA,
}

impl RenderColors {
    pub fn color_for_number(self, number: u8) -> RGBA
        ensures { result ≡ color_for_number self number }
    {
        match number {
            0 => self.paper_color,
            1 | 49 => self.color_1,
            2 | 50 => self.color_2,
            3 | 51 => self.color_3,
            _ => self.color_1,
        }
    }
}
