// Entering lengths into a space of codewords (demand 3), and the codewords of a book's entries (01, "Bits and books"; refusals 7 and 8).
ghost use Rattle.std.specs.Prelude.{◌≡◌, map, length, take};
ghost use Rattle.codespace.specs.Claims.{Balanced};
ghost use Rattle.codespace.specs.Answers.{outcome};
ghost use Rattle.codespace.specs.Entering.{entered_all};
ghost use Rattle.codeword_assignment.specs.Book.{assigned, written, refusal};

use codespace::space::TooShort;
use codeword_assignment::book::Unassigned;

// Enters any lengths one by one, from an empty space. The answer is 0, and `answers` has the answer to each length, its codeword or 2^32 for a refusal, and
// zeros behind them; or 17, where there are fewer places than lengths, and all are zero.
pub fn torchvalley_enter_lengths(lengths: &[u8], answers: &mut [u64]) -> u32
    ensures answers_after { (result, answers.new) ≡ entered_all lengths.now (length answers.old) }
    ensures balanced { result ≡ 0 → Balanced lengths.now (map outcome (take (length lengths.now) answers.new)) }
{
    if let Err(TooShort) = codespace::space::enter_lengths(lengths, answers) {
        return 17;
    }
    0
}

// Hands out each used entry's codeword, in entry order, the lowest free of its length; 0 for an unused entry, and in places behind them. The answer is 0, or
// 7, or 8; or 17, where the lent list has fewer places than there are entries. On a refusal the lent list is all zeros.
pub fn torchvalley_codewords(lengths: &[u8], codewords: &mut [u32]) -> u32
    ensures value { result ≡ refusal (assigned lengths.now (length codewords.old)) }
    ensures codewords_after { codewords.new
        ≡ written (assigned lengths.now (length codewords.old)) lengths.now
        (length codewords.old) }
{
    // The numbers that C is answered: 0 is no Reason.
    match codeword_assignment::book::assign_codewords(lengths, codewords) {
        Ok(()) => 0,
        Err(Unassigned::Overspecified(_)) => 7,
        Err(Unassigned::Underspecified) => 8,
        Err(Unassigned::TooShort) => 17,
    }
}
