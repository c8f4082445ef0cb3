// What the chip answers to a word, after some others.
use chip::step::step;
use ground::Refusal;
use registers::Registers;
use registers::word::parts;

// How many pixels pass at the last of the words, from reset, or why it is refused; none where there is no word. A refused word on the way changes
// nothing.
pub(crate) fn last(words: &[u32], im: &mut [u16], zm: &mut [u16]) -> Result<u64, Refusal> {
    let mut r = Registers::reset();
    let mut got = Ok(0);
    for word in words {
        let (command, data) = parts(*word);
        got = match step(r, command, data, im, zm) {
            Ok(answer) => {
                r = answer.registers;
                Ok(answer.passed)
            }
            Err(refusal) => Err(refusal),
        };
    }
    got
}
