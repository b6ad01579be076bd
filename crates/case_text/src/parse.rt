// The text of the cases, taken apart.
ghost use Rattle.std.specs.Prelude.{◌≤◌, ◌<◌, length};

// A number of the text, and the position after it and the byte that ends it.
#[derive(Clone, Copy)]
pub struct Numeral {
    pub value: usize,
    pub next: usize,
}

// The first position from `from` on where the byte stands, or the text's length.
pub fn find(text: &[u8], from: usize, byte: u8) -> usize
    requires { from ≤ length text.now }
    ensures { (from ≤ result) × (result ≤ length text.now) }
{
    match text[from..].iter().position(|other| *other == byte) {
        Some(passed) => from + passed,
        None => text.len(),
    }
}

// The number whose digits start at `from`.
pub fn number(text: &[u8], from: usize) -> Numeral
    ensures { (from ≤ result.next) × (from < length text.now → from < result.next) }
{
    let mut value = 0;
    for at in from..text.len() {
        let byte = text[at];
        let next = at + 1;
        match byte {
            b'0'..=b'9' => value = with_digit(value, byte - b'0'),
            _ => return Numeral { value, next },
        }
    }
    let next = from.max(text.len());
    Numeral { value, next }
}

// A number with one more digit. One that would pass the largest of 64 bits stays as it is.
fn with_digit(value: usize, digit: u8) -> usize {
    let last = digit as usize;
    if value <= (usize::MAX - last) / 10 {
        10 * value + last
    } else {
        value
    }
}

// Fills the words with the numbers of a line, and tells the position after them.
pub fn take_words(words: &mut [u64], line: &[u8], from: usize) -> usize {
    let mut next = from;
    for word in words.iter_mut() {
        let read = number(line, next);
        *word = read.value as u64;
        next = read.next;
    }
    next
}

// Sets the bytes that a line lists from `from` on, each as OFFSET=VALUE. Each value tells where the next pair begins.
pub fn fill(sheet: &mut [u8], line: &[u8], from: usize) {
    let mut at = from;
    while at < line.len() {
        let offset = number(line, at);
        let value = number(line, offset.next);
        set_byte(sheet, offset.value, value.value);
        at = value.next;
    }
}

// Sets one byte, where the sheet has it and the value is a byte's.
fn set_byte(sheet: &mut [u8], offset: usize, value: usize) {
    if offset < sheet.len() {
        if value < 256 {
            sheet[offset] = value as u8;
        }
    }
}

// Fills a sheet with the bytes that a line lists, whose length stands at `from`, and tells the length. A longer one is cut off.
pub fn take_sheet(sheet: &mut [u8], line: &[u8], from: usize) -> usize
    ensures { result ≤ length sheet.old }
{
    let size = number(line, from);
    let length = size.value;
    fill(sheet, line, size.next);
    if sheet.len() < length {
        return sheet.len();
    }
    length
}
