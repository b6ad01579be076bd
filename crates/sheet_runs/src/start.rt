// The words that two runs start from.
ghost use Rattle.std.specs.Prelude.{◌≡◌, true, length};
ghost use Rattle.trail.specs.Trail.{Trail, input_count};
ghost use Rattle.trail.specs.WellFormed.{most_words};
ghost use Rattle.trail.specs.Runs.{is_start, partner};
ghost use Rattle.sheet.specs.Fields.{trail_of};
ghost use Rattle.sheet.specs.Facts.{Limited};
ghost use Rattle.sheet_runs.specs.Facts.{Made};

use crate::Words;
use sheet::Header;
use sheet_fields::lines::difference_at;
use sheet_fields::read_sheet::ReadSheet;

// Whether there are exactly m starting words, each below 2^n: a starting value of every trail with these numbers.
pub fn is_start(header: Header, start: &[u64]) -> bool
    requires { Limited header }
    ensures { (t : Trail) → t.width ≡ header.width → input_count t ≡ header.inputs → result ≡ is_start t start.now }
{
    if start.len() != header.inputs {
        return false;
    }
    let n = header.width;
    start.iter().all(|word| arithmetic::is_word(n, *word))
}

// Fills the first m words of both runs: the starting words, and those XOR the input differences.
pub(crate) fn begin(sheet: &ReadSheet, start: &[u64], first: &mut Words, second: &mut Words)
    requires { (is_start (trail_of sheet.now.bytes.now) start.now ≡ true)
        × (length first.old ≡ most_words) × (length second.old ≡ most_words) }
    ensures { Made (trail_of sheet.now.bytes.now) start.now sheet.now.header.inputs first.new
        × Made (trail_of sheet.now.bytes.now) (partner (trail_of sheet.now.bytes.now) start.now) sheet.now.header.inputs
        second.new }
{
    for (j, word) in start.iter().enumerate() {
        first[j] = *word;
        second[j] = *word ^ difference_at(sheet, j);
    }
}
