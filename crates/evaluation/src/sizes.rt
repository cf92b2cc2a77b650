// The sizes of the evaluator, each written once.
ghost use Rattle.std.specs.Prelude.{◌≡◌};
ghost use Rattle.evaluation.specs.Evaluated.{budget, output_max, output_size};

use report::firsts::First;

// "with budget 100,000 and a 65,536 byte output": LINES takes the lines after the first, SIZE all that is printed.
#[derive(Clone, Copy)]
pub struct Output;

impl Output {
    pub const BUDGET: u32 = 100000;

    pub const LINES: usize = 65536;

    pub const SIZE: usize = Output::LINES + First::SIZE;
}

// The figures of the code are those of the specs page.
pub fn figures()
    ensures budget { Output.BUDGET ≡ budget }
    ensures lines { Output.LINES ≡ output_max }
    ensures size { Output.SIZE ≡ output_size }
{}
