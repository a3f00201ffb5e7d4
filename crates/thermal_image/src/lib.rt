// The canvas, as in the Rust's thermal_image.rs: a record by value, and its dots in a buffer that
// the caller lends. Every operation that may change it takes the record and hands the next one back.
#![tactic(auto)]

mod sizes;

ghost use Rattle.std.specs.Prelude.{◌≡◌, length};
ghost use Rattle.numbers.specs.Numbers.{number_of};
ghost use Rattle.thermal_image.specs.Canvas.{sized, finished, refused, made_new, grown, grown_on, margined, margined_on, widened, widened_on, set_width, emptied, copied, copied_on, rgb, rgb_on, rotated, rotated_on};
ghost use Rattle.refusals.specs.Refusals.{rows_of};
ghost use Rattle.moves.specs.declared.turned.Turn.{Turn};

use colour::RGBA;
use dots::fill_run;
use moves::{Turn, copy_dots, move_down, rgb_bytes, turn, widen};
use numbers::{DONE, Refusal};
use refusals::{
    canvas_refusal, grow_refusal, margin_refusal, out_refusal, rgb_refusal, rows_of, wide_refusal,
    widen_refusal, width_refusal,
};
use sizes::turned_wide;

// A canvas but for its dots, which are the first 4·width·height bytes of a buffer.
#[repr(C)]
#[derive(Clone, Copy)]
pub struct ThermalImage {
    pub width: u32,
    pub height: u32,
    pub auto_grow: bool,
    pub paper_color: RGBA,
}

// What an operation answers: the number, and the canvas.
#[repr(C)]
#[derive(Clone, Copy)]
pub struct Answer {
    pub number: u8,
    pub image: ThermalImage,
}

// What `copy` answers: the number, and the width and height of the dots written.
#[repr(C)]
#[derive(Clone, Copy)]
pub struct Copied {
    pub number: u8,
    pub width: u32,
    pub height: u32,
}

// What RGB output answers: the number, the canvas, and the width and height written.
#[repr(C)]
#[derive(Clone, Copy)]
pub struct Rgb {
    pub number: u8,
    pub image: ThermalImage,
    pub width: u32,
    pub height: u32,
}

impl ThermalImage {
    // The largest width and height.
    pub const LIMIT: u32 = numbers::LIMIT;

    pub const PAPER: RGBA = RGBA::WHITE;

    pub fn new(width: u32) -> Answer
        ensures { result ≡ made_new width }
    {
        if let Err(why) = wide_refusal(width) {
            let none = ThermalImage {
                width: 0,
                height: 0,
                auto_grow: false,
                paper_color: RGBA::BLANK,
            };
            return none.refused(why);
        }
        let image = ThermalImage {
            width,
            height: 0,
            auto_grow: true,
            paper_color: ThermalImage::PAPER,
        };
        Answer {
            number: DONE,
            image,
        }
    }

    pub fn get_height(self) -> u32
        ensures { result ≡ rows_of self.width self.height }
    {
        rows_of(self.width, self.height)
    }

    // Refused, with this canvas as given.
    pub fn refused(self, why: Refusal) -> Answer
        ensures { result ≡ refused (number_of why) self }
    {
        let number = why.number();
        Answer {
            number,
            image: self,
        }
    }

    // Done, with another width and height.
    fn sized(self, width: u32, height: u32) -> Answer
        ensures { result ≡ finished (sized self width height) }
    {
        let paper_color = self.paper_color;
        let image = ThermalImage {
            width,
            height,
            auto_grow: self.auto_grow,
            paper_color,
        };
        Answer {
            number: DONE,
            image,
        }
    }

    pub fn expand_to_height(self, height: u32, buf: &mut [u8]) -> Answer
        ensures value { result ≡ grown self height (length buf.old) }
        ensures buf_after { buf.new ≡ grown_on self height buf.old }
    {
        if let Err(why) = grow_refusal(self.width, self.height, height, buf.len()) {
            return self.refused(why);
        }
        let tall = self.height.max(height);
        let at = self.width as usize * self.height as usize;
        let end = self.width as usize * tall as usize;
        fill_run(buf, at, end - at, self.paper_color);
        self.sized(self.width, rows_of(self.width, tall))
    }

    pub fn add_top_margin(self, height: u32, buf: &mut [u8]) -> Answer
        ensures value { result ≡ margined self height (length buf.old) }
        ensures buf_after { buf.new ≡ margined_on self height buf.old }
    {
        if let Err(why) = margin_refusal(self.width, self.height, height, buf.len()) {
            return self.refused(why);
        }
        let dots = self.width as usize * self.height as usize;
        let by = self.width as usize * height as usize;
        move_down(buf, dots, by, self.paper_color);
        self.sized(self.width, rows_of(self.width, self.height + height))
    }

    pub fn expand_to_width(self, new_width: u32, buf: &mut [u8]) -> Answer
        ensures value { result ≡ widened self new_width (length buf.old) }
        ensures buf_after { buf.new ≡ widened_on self new_width buf.old }
    {
        if let Err(why) = widen_refusal(self.width, self.height, new_width, buf.len()) {
            return self.refused(why);
        }
        if new_width <= self.width {
            return self.sized(self.width, self.height);
        }
        let left = (new_width - self.width) / 2;
        widen(
            buf,
            self.width as usize,
            self.height as usize,
            new_width as usize,
            left as usize,
            self.paper_color,
        );
        self.sized(new_width, self.height)
    }

    pub fn set_width(self, width: u32, buf: &[u8]) -> Answer
        ensures { result ≡ set_width self width (length buf.now) }
    {
        if let Err(why) = width_refusal(self.width, self.height, width, buf.len()) {
            return self.refused(why);
        }
        self.sized(width, 0)
    }

    pub fn empty(self, buf: &[u8]) -> Answer
        ensures { result ≡ emptied self (length buf.now) }
    {
        if let Err(why) = canvas_refusal(self.width, self.height, buf.len()) {
            return self.refused(why);
        }
        self.sized(self.width, 0)
    }

    pub fn reset(self, buf: &[u8]) -> Answer
        ensures { result ≡ emptied self (length buf.now) }
    {
        self.empty(buf)
    }

    pub fn copy(self, buf: &[u8], out: &mut [u8]) -> Copied
        ensures value { result ≡ copied self (length buf.now) (length out.old) }
        ensures out_after { out.new ≡ copied_on self buf.now out.old }
    {
        if let Err(why) = out_refusal(self.width, self.height, buf.len(), out.len()) {
            return Copied {
                number: why.number(),
                width: 0,
                height: 0,
            };
        }
        let dots = self.width as usize * self.height as usize;
        copy_dots(buf, dots, out);
        Copied {
            number: DONE,
            width: self.width,
            height: self.height,
        }
    }

    pub fn consume_rgb_u8(self, buf: &[u8], out: &mut [u8]) -> Rgb
        ensures value { result ≡ rgb self (length buf.now) (length out.old) }
        ensures out_after { out.new ≡ rgb_on self buf.now out.old }
    {
        if let Err(why) = rgb_refusal(self.width, self.height, buf.len(), out.len()) {
            return Rgb {
                number: why.number(),
                image: self,
                width: 0,
                height: 0,
            };
        }
        let dots = self.width as usize * self.height as usize;
        rgb_bytes(buf, dots, out);
        let answer = self.sized(0, 0);
        let image = answer.image;
        Rgb {
            number: DONE,
            image,
            width: self.width,
            height: self.height,
        }
    }

    pub fn rotate_90(self, buf: &[u8], out: &mut [u8]) -> Answer
        ensures value { result ≡ rotated Turn.Quarter self (length buf.now) (length out.old) }
        ensures out_after { out.new ≡ rotated_on Turn.Quarter self buf.now out.old }
    {
        self.rotate(Turn::Quarter, buf, out)
    }

    pub fn rotate_180(self, buf: &[u8], out: &mut [u8]) -> Answer
        ensures value { result ≡ rotated Turn.Half self (length buf.now) (length out.old) }
        ensures out_after { out.new ≡ rotated_on Turn.Half self buf.now out.old }
    {
        self.rotate(Turn::Half, buf, out)
    }

    pub fn rotate_270(self, buf: &[u8], out: &mut [u8]) -> Answer
        ensures value { result ≡ rotated Turn.ThreeQuarters self (length buf.now) (length out.old) }
        ensures out_after { out.new ≡ rotated_on Turn.ThreeQuarters self buf.now out.old }
    {
        self.rotate(Turn::ThreeQuarters, buf, out)
    }

    fn rotate(self, by: Turn, buf: &[u8], out: &mut [u8]) -> Answer
        ensures value { result ≡ rotated by self (length buf.now) (length out.old) }
        ensures out_after { out.new ≡ rotated_on by self buf.now out.old }
    {
        if let Err(why) = out_refusal(self.width, self.height, buf.len(), out.len()) {
            return self.refused(why);
        }
        turn(buf, self.width as usize, self.height as usize, by, out);
        let width = turned_wide(by, self.width, self.height);
        let height = turned_wide(by, self.height, self.width);
        self.sized(width, rows_of(width, height))
    }
}
