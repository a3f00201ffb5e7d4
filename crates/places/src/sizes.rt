// What cropping leaves, and the height that drawing comes to.
ghost use Rattle.std.specs.Prelude.{◌≡◌};
ghost use Rattle.places.specs.Places.{cropped, crop_wide, crop_tall, tall_after, flip_tall, flips, image_tall};

use thermal_image::ThermalImage;

// What is left of an image that is cropped, or all of one that is not.
#[derive(Clone, Copy)]
pub struct Crop {
    pub w: u32,
    pub h: u32,
}

pub(crate) fn cropped(t: ThermalImage, x: u32, y: u32, w: u32) -> bool
    ensures { result ≡ cropped t x y w }
{
    let across = (t.width as usize) < x as usize + w as usize;
    across || !t.auto_grow && (t.height as usize) < y as usize + w as usize
}

pub fn crop_pixels(t: ThermalImage, x: u32, y: u32, w: u32, h: u32) -> Crop
    ensures { (result.w ≡ crop_wide t x y w) × (result.h ≡ crop_tall t x y w h) }
{
    if !cropped(t, x, y, w) {
        return Crop { w, h };
    }
    let wide = w.min(t.width.saturating_sub(x));
    if t.auto_grow {
        return Crop { w: wide, h };
    }
    let tall = h.min(t.height.saturating_sub(y));
    Crop { w: wide, h: tall }
}

pub fn tall_after(t: ThermalImage, x: u32, y: u32, w: u32, h: u32) -> usize
    ensures { result ≡ tall_after t x y w h }
{
    let c = crop_pixels(t, x, y, w, h);
    (t.height as usize).max(y as usize + c.h as usize)
}

pub fn flip_tall(t: ThermalImage, y: u32, h: u32) -> usize
    ensures { result ≡ flip_tall t y h }
{
    (t.height as usize).max(y as usize + h as usize)
}

pub fn flips(upside_down: bool, t: ThermalImage, x: u32, w: u32, h: u32) -> bool
    ensures { result ≡ flips upside_down t x w h }
{
    upside_down && w != 0 && h != 0 && x as usize + w as usize <= t.width as usize
}

pub fn image_tall(upside_down: bool, t: ThermalImage, x: u32, y: u32, w: u32, h: u32) -> usize
    ensures { result ≡ image_tall upside_down t x y w h }
{
    let tall = tall_after(t, x, y, w, h);
    if flips(upside_down, t, x, w, h) {
        return tall.max(y as usize + h as usize);
    }
    tall
}
