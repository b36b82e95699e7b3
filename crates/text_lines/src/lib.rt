// Lines from a reader, and answers to a writer, each through a buffer of the caller's.
#![tactic(auto)]

ghost use Rattle.std.specs.Prelude.{◌-◌, ◌≤◌, ◌≡◌, length, take};
ghost use Rattle.text_lines.specs.Lines.{at_begin, looked, last_of, unfinished_of, look_of, text_end, line_of, passed_by, moved_cursor, moved_bytes, ReadAfter, room_at};

use std::io::{Read, Write};
use text_print::Printer;
use text_scan::bytes::part;
use text_scan::{first, is_at};

// The longest line, without its newline. The input buffer is longer.
pub const LONGEST: usize = 1_048_576;

// What is kept free of the output buffer, so that the next few words fit.
const SPARE: usize = 1_024;

// Where reading stands in the input buffer: apart from the buffer, so that a line is lent while the cursor goes on.
#[derive(Clone, Copy)]
pub struct Cursor {
    // The next line begins here, no newline stands before `seen`, and what was read ends at `to`.
    pub from: usize,
    pub seen: usize,
    pub to: usize,
    // Nothing more can be read.
    pub ended: bool,
    // The line is too long, and what was read of it was dropped.
    pub dropped: bool,
}

// A line that was found: it ends at `end`, and the next begins at `next`.
#[derive(Clone, Copy)]
pub struct Found {
    pub end: usize,
    pub next: usize,
}

impl Cursor {
    pub fn new() -> Cursor
        ensures { result ≡ at_begin }
    {
        Cursor {
            from: 0,
            seen: 0,
            to: 0,
            ended: false,
            dropped: false,
        }
    }

    // What is left at the end of the input is a line without a newline.
    #[tactic(auto, unfolding(crate::specs::Lines::last_of))]
    fn last(self) -> Option<Found>
        ensures { looked self result ≡ last_of self }
    {
        if self.from < self.to || self.dropped {
            return Some(Found {
                end: self.to,
                next: self.to,
            });
        }
        None
    }

    // No newline yet: what was read of a line that is too long is dropped.
    #[tactic(auto, unfolding(crate::specs::Lines::unfinished_of))]
    fn unfinished(&mut self)
        ensures { looked self.new None ≡ unfinished_of self.old }
    {
        if LONGEST < self.to.saturating_sub(self.from) {
            self.from = self.to;
            self.dropped = true;
        }
        self.seen = self.to;
    }

    // Looks for the end of the next line in what was read.
    #[tactic(auto, unfolding(crate::specs::Lines::look_of))]
    pub fn look(&mut self, input: &[u8]) -> Option<Found>
        ensures { looked self.new result ≡ look_of input.now self.old }
    {
        let newline = first(input, self.seen, self.to, b'\n');
        if let Some(end) = newline {
            return Some(Found {
                end,
                next: end.saturating_add(1),
            });
        }
        if self.ended {
            return self.last();
        }
        self.unfinished();
        None
    }

    // Where the text of the line that was found ends: a carriage return before its newline is no part of it.
    #[tactic(auto, unfolding(crate::specs::Lines::text_end, crate::specs::Lines::return_before))]
    fn text_end(self, input: &[u8], found: Found) -> usize
        ensures { result ≡ text_end input.now self found }
    {
        let end = found.end;
        if end < found.next && self.from < end && is_at(input, end - 1, b'\r') {
            return end - 1;
        }
        end
    }

    // The line that was found. One that is too long is empty, and an empty line cannot be read.
    #[tactic(auto, unfolding(crate::specs::Lines::line_of, crate::specs::Lines::too_long))]
    pub fn line(self, input: &[u8], found: Found) -> &[u8]
        ensures { result.now ≡ line_of input.now self found }
    {
        if self.dropped || LONGEST < found.end.saturating_sub(self.from) {
            return part(input, 0, 0);
        }
        part(input, self.from, self.text_end(input, found))
    }

    // The line is answered.
    pub fn pass(&mut self, found: Found)
        ensures { self.new ≡ passed_by found self.old }
    {
        self.from = found.next;
        self.seen = found.next;
        self.dropped = false;
    }

    // Where the buffer is used up, the lines that were answered make room.
    #[tactic(auto, unfolding(crate::specs::Lines::moved_cursor, crate::specs::Lines::moved_bytes))]
    fn make_room(&mut self, input: &mut [u8])
        ensures cursor { self.new ≡ moved_cursor (length input.old) self.old }
        ensures bytes { input.new ≡ moved_bytes self.old input.old }
    {
        if self.to < input.len() {
            return;
        }
        base::shift(input, self.from, 0);
        self.seen = self.seen.saturating_sub(self.from);
        self.to = self.to.saturating_sub(self.from);
        self.from = 0;
    }

    // Reads more of the input, after what stands in the buffer. A line of which a part was dropped stays dropped.
    pub fn more<R: Read>(&mut self, reader: &mut R, input: &mut [u8])
        ensures { ReadAfter (moved_cursor (length input.old) self.old) (moved_bytes self.old input.old) self.new input.new }
    {
        self.make_room(input);
        let got = read_after(reader, input, self.to);
        self.to = self.to.saturating_add(got);
        self.ended = got == 0;
    }
}

// Reads once, to the end of the buffer: how many bytes came, none where reading failed. The bytes before `to` stay.
fn read_after<R: Read>(reader: &mut R, input: &mut [u8], to: usize) -> usize
    ensures { (result ≤ length input.old - to) × (take to input.new ≡ take to input.old) }
{
    if input.len() < to {
        return 0;
    }
    let room = &mut input[to..];
    reader.read(room).unwrap_or(0)
}

// Where answers go: a printer, and the writer to which its buffer is written out.
#[derive(Drop)]
pub struct Output<'a, W> {
    pub writer: &'a mut W,
    pub printer: Printer<'a>,
}

impl<W: Write> Output<'_, W> {
    // Writes the answers so far, and the buffer begins anew: whether that could be done.
    pub fn flush(&mut self) -> bool
        ensures place { self.new.printer.place ≡ 0 }
        ensures bytes { self.new.printer.out.now ≡ self.old.printer.out.now }
        ensures same { self.new.printer.out.ghost_name ≡ self.old.printer.out.ghost_name }
    {
        let done = self.writer.write_all(self.printer.text()).is_ok();
        self.printer.place = 0;
        done
    }

    // Makes room for the next words: where few places are left, the answers so far are written and the buffer begins anew. Whether
    // they were written is not asked here: a writer that goes on failing is found at the next flush, which ends the program.
    #[tactic(auto, unfolding(crate::specs::Lines::room_at))]
    pub fn room(&mut self)
        ensures place { self.new.printer.place ≡ room_at 262_144 self.old.printer.place }
        ensures bytes { self.new.printer.out.now ≡ self.old.printer.out.now }
        ensures same { self.new.printer.out.ghost_name ≡ self.old.printer.out.ghost_name }
    {
        if self.printer.out.len().saturating_sub(self.printer.place) < SPARE {
            self.flush();
        }
    }
}
