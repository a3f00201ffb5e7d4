// The paper and the commands of a job, from the bodies of its records.
ghost use Rattle.std.specs.Prelude.{◌≡◌, true, ◌+◌, ◌≤◌, length};
ghost use Rattle.job.specs.Commands.{rectangle_size, image_size, flip_size, commands_start, sound_paper, sound_command, paper_width, paper_color, rectangle_at, image_at, flip_at, command_at};

use super::bytes::{read_rgba, read_u32};
use super::kinds::{
    FLIP, FLIP_SIZE, HEAD_SIZE, IMAGE, IMAGE_SIZE, MARGIN, MARGIN_SIZE, MULTIPLY, PAPER,
    PAPER_SIZE, RECTANGLE, RECTANGLE_SIZE,
};
use colour::RGBA;
use numbers::LIMIT;

#[derive(Clone, Copy)]
pub enum Command {
    Rectangle {
        x: u32,
        y: u32,
        w: u32,
        h: u32,
        color: RGBA,
        mode: u8,
    },
    // The bit rows are `size` bytes of the job from `start` on.
    Image {
        x: u32,
        y: u32,
        w: u32,
        h: u32,
        stretch_x: u8,
        stretch_y: u8,
        color: RGBA,
        mode: u8,
        start: usize,
        size: usize,
    },
    Margin(u32),
    Flip {
        x: u32,
        y: u32,
        w: u32,
        h: u32,
    },
}

pub(crate) fn sound_paper(s: &[u8], kind: u16, at: usize, n: usize) -> bool
    requires { at + n ≤ length s.now }
    ensures { result ≡ sound_paper s.now kind at n }
{
    if kind != PAPER || n != PAPER_SIZE {
        return false;
    }
    let w = read_u32(s, at);
    1 <= w && w <= LIMIT
}

pub(crate) fn sound_command(s: &[u8], kind: u16, at: usize, n: usize) -> bool
    requires { at + n ≤ length s.now }
    ensures { result ≡ sound_command s.now kind at n }
{
    match kind {
        RECTANGLE => n == RECTANGLE_SIZE && s[at + 20] <= MULTIPLY,
        IMAGE => n >= IMAGE_SIZE && s[at + 22] <= MULTIPLY,
        MARGIN => n == MARGIN_SIZE,
        FLIP => n == FLIP_SIZE,
        _ => false,
    }
}

pub fn paper_width(s: &[u8]) -> u32
    requires { commands_start ≤ length s.now }
    ensures { result ≡ paper_width s.now }
{
    read_u32(s, HEAD_SIZE)
}

pub fn paper_color(s: &[u8]) -> RGBA
    requires { commands_start ≤ length s.now }
    ensures { result ≡ paper_color s.now }
{
    read_rgba(s, HEAD_SIZE + 4)
}

fn rectangle_at(s: &[u8], at: usize) -> Command
    requires { at + rectangle_size ≤ length s.now }
    ensures { result ≡ rectangle_at s.now at }
{
    let color = read_rgba(s, at + 16);
    Command::Rectangle {
        x: read_u32(s, at),
        y: read_u32(s, at + 4),
        w: read_u32(s, at + 8),
        h: read_u32(s, at + 12),
        color,
        mode: s[at + 20],
    }
}

fn image_at(s: &[u8], at: usize, n: usize) -> Command
    requires { (at + n ≤ length s.now) × (image_size ≤ n) }
    ensures { result ≡ image_at s.now at n }
{
    let color = read_rgba(s, at + 18);
    Command::Image {
        x: read_u32(s, at),
        y: read_u32(s, at + 4),
        w: read_u32(s, at + 8),
        h: read_u32(s, at + 12),
        stretch_x: s[at + 16],
        stretch_y: s[at + 17],
        color,
        mode: s[at + 22],
        start: at + IMAGE_SIZE,
        size: n - IMAGE_SIZE,
    }
}

fn flip_at(s: &[u8], at: usize) -> Command
    requires { at + flip_size ≤ length s.now }
    ensures { result ≡ flip_at s.now at }
{
    Command::Flip {
        x: read_u32(s, at),
        y: read_u32(s, at + 4),
        w: read_u32(s, at + 8),
        h: read_u32(s, at + 12),
    }
}

pub fn command_at(s: &[u8], kind: u16, at: usize, n: usize) -> Command
    requires { (at + n ≤ length s.now) × (sound_command s.now kind at n ≡ true) }
    ensures { result ≡ command_at s.now kind at n }
{
    match kind {
        RECTANGLE => rectangle_at(s, at),
        IMAGE => image_at(s, at, n),
        MARGIN => Command::Margin(read_u32(s, at)),
        _ => flip_at(s, at),
    }
}
