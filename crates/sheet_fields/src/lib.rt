// A sheet's fields at their offsets (document 01, "The sheet").

#![tactic(auto)]

pub mod lines;
pub mod predicates;
pub mod read_sheet;
pub mod sizes;

ghost use Rattle.std.specs.Prelude.{◌≡◌, ◌+◌, ◌*◌, ◌<◌, ◌≤◌, length};
ghost use Rattle.buffers.specs.LittleEndian.{number_at};
ghost use Rattle.sheet.specs.Form.{word_bytes, record_bytes, inputs_end};
ghost use Rattle.sheet.specs.Blocks.{length_least};
ghost use Rattle.sheet.specs.Fields.{header_of, input_difference, record_from, record_position, record_of};
ghost use Rattle.sheet.specs.Facts.{Whole, Limited};

use crate::sizes::{record_bytes, records_in_block, word_bytes};
use buffers::{byte_at, u16_at, u32_at};
use sheet::{Form, Header, Record};

// The form, which is the only one that a mark tells, and the header's numbers.
pub fn header_of(s: &[u8]) -> Header
    requires { length_least ≤ length s.now }
    ensures { result ≡ header_of s.now }
{
    let width = byte_at(s, 4);
    let inputs = byte_at(s, 5) as usize;
    let lines = u16_at(s, 6) as usize;
    Header {
        form: Form::Narrow,
        blocks: s.len() / 512,
        width,
        inputs,
        lines,
    }
}

// The difference or constant at a position.
fn word_at(s: &[u8], at: usize, form: Form) -> u64
    requires { at + word_bytes form ≤ length s.now }
    ensures { result ≡ number_at (word_bytes form) s.now at }
{
    match form {
        Form::Narrow => u32_at(s, at) as u64,
    }
}

// Input difference j.
pub fn input_difference(s: &[u8], j: usize, form: Form) -> u64
    requires { (inputs_end form ≤ length s.now) × (j < 8) }
    ensures { result ≡ input_difference form s.now j }
{
    word_at(s, 8 + word_bytes(form) * j, form)
}

// The record at a position.
fn record_from(s: &[u8], at: usize, form: Form) -> Record
    requires { at + record_bytes form ≤ length s.now }
    ensures { result ≡ record_from form s.now at }
{
    let kind = byte_at(s, at);
    let amount = byte_at(s, at + 1);
    let first = u16_at(s, at + 2) as usize;
    let second = u16_at(s, at + 4) as usize;
    let zero = u16_at(s, at + 6);
    let constant = word_at(s, at + 8, form);
    let difference = word_at(s, at + 8 + word_bytes(form), form);
    Record {
        kind,
        amount,
        first,
        second,
        zero,
        constant,
        difference,
    }
}

// Where line k's record stands.
pub fn record_position(header: Header, k: usize) -> usize
    requires { Limited header × (k < header.lines) }
    ensures { result ≡ record_position header.form k }
{
    let form = header.form;
    let records = records_in_block(form);
    512 * (1 + k / records) + record_bytes(form) * (k % records)
}

// Line k's record.
pub fn record_of(s: &[u8], header: Header, k: usize) -> Record
    requires { Whole s.now header × Limited header × (k < header.lines) }
    ensures { result ≡ record_of header.form s.now k }
{
    let form = header.form;
    record_from(s, record_position(header, k), form)
}
