// The printing program: it reads a recipe from standard input, flattens it, and writes the flat table or the refusal to standard output.
// No contract of the kit can speak of what is read or written, so all that is written is first put together as one text, of which every byte is promised.
#![tactic(auto)]

ghost use Rattle.std.specs.Prelude.{◌≡◌, ◌≤◌, ◌++◌, List, ℕ, [], IfOk, IfSome, length, take};
ghost use Rattle.flat_table.specs.Table.{flat_width, flat_length};
ghost use Rattle.composer.specs.Verdicts.{name_width};
ghost use Rattle.composer.specs.Printed.{characters, decimal, shown, row_line, table_lines, refusal_line, printed_of, input_room, output_room, program_output};
ghost use Rattle.bandrolt.specs.Text.{HasRoom, row_lines};
ghost use Rattle.bandrolt.specs.Reading.{got_of};

use composer::Answer;
use std::io::{Read, Result};
use std::marker::Model;
use std::process::ExitCode;

// Room for each text: a first line of at most 26 bytes, and for each of 319 records at most 211.
const TEXT_ROOM: usize = 67335;

// The text that is put together before it is written.
#[derive(Drop)]
struct Text {
    bytes: [u8; TEXT_ROOM],
    len: usize,
}

// A clause sees the bytes that were printed.
impl Model for Text {
    ghost Value = { List ℕ };

    ghost view = { λ t. take t.len t.bytes };

    ghost invariant = { λ t. t.len ≤ length t.bytes };
}

// Each method prints behind what stands there, and asks for the room of what it prints.
impl Text {
    fn new() -> Self
        ensures { result ≡ [] }
    {
        Text {
            bytes: [0; TEXT_ROOM],
            len: 0,
        }
    }

    fn as_slice(&self) -> &[u8]
        ensures { result.now ≡ self.now }
    {
        &self.bytes[..self.len]
    }

    // Bytes as they are.
    fn put(&mut self, bytes: &[u8])
        requires { HasRoom self.old bytes.now }
        ensures { self.new ≡ self.old ++ bytes.now }
    {
        let end = self.len + bytes.len();
        self.bytes[self.len..end].copy_from_slice(bytes);
        self.len = end;
    }

    // A number in decimal, which has at most 20 digits.
    fn print_decimal(&mut self, k: u64)
        requires { HasRoom self.old (decimal k) }
        ensures { self.new ≡ self.old ++ decimal k }
    {
        let mut digits = [0u8; 20];
        let n = io::decimal(k, &mut digits);
        self.put(&digits[..n]);
    }

    // A space, and a field without its padding, - for a blank.
    fn print_column(&mut self, field: &[u8])
        requires { HasRoom self.old (characters " " ++ shown field.now) }
        ensures { self.new ≡ self.old ++ (characters " " ++ shown field.now) }
    {
        self.put(b" ");
        if names::is_blank(field) {
            self.put(b"-");
            return;
        }
        self.put(names::unpadded(field));
    }

    // A record's line.
    fn print_row(&mut self, row: &[u8])
        requires whole { length row.now ≡ 205 }
        requires room { HasRoom self.old (row_line (flat_width name_width) (flat_length name_width) row.now 0) }
        ensures { self.new ≡ self.old ++ row_line (flat_width name_width) (flat_length name_width) row.now 0 }
    {
        self.print_decimal(row[0] as u64);
        self.print_column(names::field_at(row, 1, 68));
        self.print_column(names::field_at(row, 69, 68));
        self.print_column(names::field_at(row, 137, 68));
        self.put(b"\n");
    }

    // A line for each record.
    fn print_rows(&mut self, table: &[u8])
        requires { HasRoom self.old (row_lines name_width table.now) }
        ensures { self.new ≡ self.old ++ row_lines name_width table.now }
    {
        for row in table.chunks_exact(205) {
            self.print_row(row);
        }
    }

    // The count, and a line for each record.
    fn print_table(&mut self, count: u64, table: &[u8])
        requires { HasRoom self.old (table_lines name_width count table.now) }
        ensures { self.new ≡ self.old ++ table_lines name_width count table.now }
    {
        self.put(b"flat ");
        self.print_decimal(count);
        self.put(b"\n");
        self.print_rows(table);
    }

    // The refusal's number and place.
    fn print_refusal(&mut self, number: u64, place: u64)
        requires { HasRoom self.old (refusal_line number place) }
        ensures { self.new ≡ self.old ++ refusal_line number place }
    {
        self.put(b"refused ");
        self.print_decimal(number);
        self.put(b" at ");
        self.print_decimal(place);
        self.put(b"\n");
    }

    // What is printed of an answer and the table, into an empty text.
    fn print_answer(&mut self, a: Answer, table: &[u8])
        requires room { length table.now ≤ 65395 }
        requires empty { self.old ≡ [] }
        ensures { self.new ≡ printed_of name_width a table.now }
    {
        match a.number {
            0 => self.print_table(a.count, table),
            number => self.print_refusal(number, a.place),
        }
    }
}

// What the program writes of an input, with a table lent for flattening.
fn print_recipe(input: &[u8], table: &mut [u8], text: &mut Text)
    requires read { length input.now ≤ input_room }
    requires room { length table.old ≡ output_room }
    requires empty { text.old ≡ [] }
    ensures { text.new ≡ program_output input.now }
{
    let a = composer::flatten(input, table);
    text.print_answer(a, &table[..a.bytes as usize]);
}

// What a read into the room answered: how many bytes more are there, none at the input's end, or why it failed.
fn judge(answered: Result<usize>, room: &[u8]) -> Result<Option<usize>>
    ensures { result ≡ got_of answered (length room.now) }
{
    let count = answered?.min(room.len());
    Ok((count > 0).then_some(count))
}

// Reads until the input ends, the room is full or a read fails: where the reader's bytes are known, what was read is all of them that have room.
fn read_input<'a, R: Read>(reader: &mut R, room: &'a mut [u8]) -> Result<&'a [u8]>
    requires { length room.old ≡ input_room }
    ensures bound { IfOk result (λ input. length input.now ≤ input_room) }
    ensures all { IfOk result (λ input. IfSome (R.remaining reader.old) (λ known. input.now ≡ take input_room known)) }
{
    let mut n = 0;
    while n < room.len() {
        let answered = reader.read(&mut room[n..]);
        match judge(answered, &room[n..])? {
            Some(more) => n += more,
            None => break,
        }
    }
    Ok(&room[..n])
}

// Reads at most 16,385 bytes, and lends 65,395 for the table. Where reading failed nothing is written; a failure is told on standard error, and by the status.
fn main(rt: HostRuntime) -> ExitCode {
    let mut room = [0u8; 16385];
    let mut table = [0u8; 65395];
    let input = match read_input(&mut rt.stdin(), &mut room) {
        Ok(input) => input,
        Err(why) => {
            let _ = eprintln!(rt; "bandrolt: standard input: {why}");
            return ExitCode::FAILURE;
        }
    };
    let mut text = Text::new();
    print_recipe(input, &mut table, &mut text);
    if let Err(why) = rt.write_all(text.as_slice()) {
        let _ = eprintln!(rt; "bandrolt: standard output: {why}");
        return ExitCode::FAILURE;
    }
    ExitCode::SUCCESS
}
