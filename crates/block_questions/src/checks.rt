// The blocks' checks: question 2.
ghost use Rattle.std.specs.Prelude.{◌≡◌, ◌+◌, ◌*◌, ◌%◌, ◌^◌, ◌<◌, ◌≤◌, length, ◌==◌};
ghost use Rattle.buffers.specs.LittleEndian.{number_at};
ghost use Rattle.words.specs.Below.{total, concat};
ghost use Rattle.sheet.specs.Asking.{verdict};
ghost use Rattle.sheet.specs.Checks.{check_of, check_position};
ghost use Rattle.sheet.specs.Questions.{check_question};
ghost use Rattle.sheet.specs.Facts.{Whole};
ghost use Rattle.answers.specs.Answers.{reading_means};

use answers::Refusal;
use buffers::u32_at;
use sheet::Header;

// As many numbers of 32 bits as asked for, from a position on, added modulo 2^32.
pub fn number_sum(s: &[u8], at: usize, count: usize) -> u32
    requires { at + 4 * count ≤ length s.now }
    ensures { result ≡ total count (λ j. number_at 4 s.now (at + 4 * j)) % 2 ^ 32 }
{
    let mut sum: u32 = 0;
    for j in 0..count {
        sum = std::num::wrapping_add_u32(sum, u32_at(s, at + 4 * j));
    }
    sum
}

// A block's check: its first 127 numbers and its index, added modulo 2^32.
pub fn block_check(s: &[u8], block: usize) -> u32
    requires { (512 * block + 512 ≤ length s.now) × (block < 9) }
    ensures { result ≡ check_of s.now block }
{
    std::num::wrapping_add_u32(number_sum(s, 512 * block, 127), block as u32)
}

// Whether a block's check is right.
fn check_right(s: &[u8], block: usize) -> bool
    requires { (512 * block + 512 ≤ length s.now) × (block < 9) }
    ensures { result ≡ (number_at 4 s.now (check_position block) == check_of s.now block) }
{
    u32_at(s, 512 * block + 508) == block_check(s, block)
}

// Question 2 of every block.
pub fn check_stage(s: &[u8], header: Header) -> Result<Header, Refusal>
    requires { Whole s.now header }
    ensures { reading_means result ≡ verdict (concat header.blocks (check_question s.now)) header }
{
    let blocks = header.blocks;
    for block in 0..blocks {
        if !check_right(s, block) {
            return Err(Refusal::Check(block));
        }
    }
    Ok(header)
}
