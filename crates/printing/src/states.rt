// What is printed from: a lent table and a lent state that are sound together.
ghost use Rattle.lent.specs.Both.{BothSound};

use parts::Limits;

// Whether both are sound is decided, so that the fact that some rule text gives the table is kept with no witness.
#[derive(Clone, Copy)]
pub struct SoundState<'a> {
    pub table: &'a [u8; Limits::TABLE],
    pub state: &'a [u16; Limits::STATE],
    pub ghost sound: { ∥ BothSound table.now state.now ∥₁ },
}
