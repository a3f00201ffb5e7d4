// How far a picture is turned, clockwise.
#[derive(Clone, Copy)]
pub enum Turn {
    Quarter,
    Half,
    ThreeQuarters,
}
