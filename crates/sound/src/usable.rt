// What the tests of a state are lent: a table whose bytes are just those of a table, and a state.
ghost use Rattle.sound.specs.Lent.{Usable};

use parts::Limits;

#[derive(Clone, Copy)]
pub struct UsableTable<'a> {
    pub bytes: &'a [u8; Limits::TABLE],
    pub ghost usable: { Usable bytes.now },
}

// A usable table and a state that is to be tested under it.
#[derive(Clone, Copy)]
pub struct Lent<'t, 's> {
    pub table: UsableTable<'t>,
    pub state: &'s [u16; Limits::STATE],
}
