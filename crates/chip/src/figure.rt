// The figure that a word completes, for those that go over the words by themselves.
ghost use Rattle.std.specs.Prelude.{◌≡◌};
ghost use Rattle.registers.specs.Next.{completed_by};

use registers::Registers;
use registers::shape::Completed;
use registers::word::Word;

// What an accepted word completes.
#[tactic(auto, unfolding(registers::specs::Next::completed_by))]
pub fn completed(r: Registers, word: Word) -> Completed
    ensures { result ≡ completed_by r word }
{
    match word {
        Word::At(c, n) => r.completed_by(c, n),
        Word::Init(_)
        | Word::Aux(_)
        | Word::Parm(_)
        | Word::Img(_)
        | Word::Ptrn(_)
        | Word::Reserved
        | Word::Unmodelled
        | Word::Unknown => Completed::Nothing,
    }
}
