// A rule of a lent table that its test has passed: each of its codes can be read in place.
ghost use Rattle.firing.specs.Built.{Ruled, Ruled-prop};

use parts::Limits;

#[derive(Clone, Copy)]
pub struct LentRule<'a> {
    pub table: &'a [u8; Limits::TABLE],
    pub number: u16,
    pub ghost ruled: { Ruled table.now number } by { Ruled-prop table.now number },
}
