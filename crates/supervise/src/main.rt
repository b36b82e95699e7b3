// The library behind the text protocol of compare/README.md: reads calls from standard input, one a line, and writes one answer line each.
// A line becomes a request (text_read), a request an answer (text_alone, text_called, text_crafted), an answer a line (text_shown).
#![tactic(auto)]

use delay_hold::HoldLists;
use rules_record::{AllLists, AllView, Inputs};
use rules_window::WindowLists;
use std::io::{Read, Write};
use text_alone::Alone;
use text_answers::{Answer, Left};
use text_files::file_at;
use text_lending::{Lists, Places, buckets_in};
use text_lines::{Cursor, Output};
use text_print::Printer;
use text_requests::lists::{MOST_LOADS, loads_at};
use text_requests::{Ask, Call, Change, HoldCall, Known, Lone, PutAsked, Request, WindowCall};
use text_shown::ShownLists;

// The input buffer: the longest line, its newline, and a little more.
type Input = [u8; 1_048_640];

// The bytes of as many flows as `new` loads at most.
const LOADED: usize = MOST_LOADS * 16;

// All that is kept from line to line, but for the supervisor's record and the lists.
#[derive(Clone, Copy)]
pub struct State {
    // There may be more lines.
    pub more: bool,
    pub cursor: Cursor,
    // Whole records are shown.
    pub full: bool,
    pub alone: Alone,
}

// All that the program keeps, and where its answers go.
#[derive(Drop)]
struct Program<'a, W> {
    output: Output<'a, W>,
    lists: Lists<'a>,
    state: State,
    inputs: Inputs,
}

fn begin() -> State {
    State {
        more: true,
        cursor: Cursor::new(),
        full: false,
        alone: text_alone::begin(),
    }
}

// What reading the next line depends on.
fn known(inputs: Inputs, alone: Alone) -> Known {
    let window = alone.window;
    Known {
        inputs: inputs.count,
        buckets: buckets_in(inputs),
        lone_buckets: window.buckets,
    }
}

// ---- each call is lent those of the lists that it needs
fn on_window(call: WindowCall, kept: Alone, short: bool, lists: &mut Lists<'_>) -> Left<Alone> {
    let starts = &mut *lists.starts;
    let totals = &mut *lists.totals;
    let counts = &mut *lists.counts;
    let sums = &mut *lists.sums;
    let mut own = WindowLists {
        starts,
        totals,
        counts,
        sums,
    };
    text_alone::on_window(call, kept, short, &mut own)
}

fn on_hold(call: HoldCall, kept: Alone, short: bool, lists: &mut Lists<'_>) -> Left<Alone> {
    let times = &mut *lists.times;
    let lags = &mut *lists.peaks;
    let mut own = HoldLists { times, lags };
    text_alone::on_hold(call, kept, short, &mut own)
}

fn craft_rows(s: &[u8], at: usize, buckets: usize, lists: &mut Lists<'_>) {
    let starts = &mut *lists.starts;
    let totals = &mut *lists.totals;
    let counts = &mut *lists.counts;
    let sums = &mut *lists.sums;
    let mut own = WindowLists {
        starts,
        totals,
        counts,
        sums,
    };
    text_crafted::rows(s, at, buckets, Places::LONE, &mut own);
}

fn craft_peaks(s: &[u8], at: usize, n: usize, lists: &mut Lists<'_>) {
    let times = &mut *lists.times;
    let lags = &mut *lists.peaks;
    let mut own = HoldLists { times, lags };
    text_crafted::peaks(s, at, n, Places::LONE, &mut own);
}

fn change(
    call: Change,
    kept: Inputs,
    short: bool,
    s: &[u8],
    flows: &[u8],
    lists: &mut Lists<'_>,
) -> Left<Inputs> {
    let starts = &mut *lists.starts;
    let totals = &mut *lists.totals;
    let counts = &mut *lists.counts;
    let sums = &mut *lists.sums;
    let times = &mut *lists.times;
    let peaks = &mut *lists.peaks;
    let commands = &mut *lists.commands;
    let mut own = AllLists {
        starts,
        totals,
        counts,
        sums,
        times,
        peaks,
    };
    text_called::change(call, kept, short, s, flows, lists.heard, &mut own, commands)
}

fn ask(call: Ask, kept: Inputs, short: bool, lists: &mut Lists<'_>) -> Answer {
    let starts = &*lists.starts;
    let totals = &*lists.totals;
    let counts = &*lists.counts;
    let sums = &*lists.sums;
    let times = &*lists.times;
    let peaks = &*lists.peaks;
    let file = &mut *lists.bytes;
    let seen = AllView {
        starts,
        totals,
        counts,
        sums,
        times,
        peaks,
    };
    text_called::ask(call, kept, short, seen, file)
}

fn craft(asked: PutAsked, kept: Inputs, s: &[u8], lists: &mut Lists<'_>) -> Inputs {
    let starts = &mut *lists.starts;
    let totals = &mut *lists.totals;
    let counts = &mut *lists.counts;
    let sums = &mut *lists.sums;
    let times = &mut *lists.times;
    let peaks = &mut *lists.peaks;
    let mut own = AllLists {
        starts,
        totals,
        counts,
        sums,
        times,
        peaks,
    };
    text_crafted::put(kept, asked, buckets_in(kept), s, &mut own)
}

fn show<W: Write>(
    output: &mut Output<'_, W>,
    answer: Answer,
    full: bool,
    inputs: Inputs,
    alone: Alone,
    lists: &Lists<'_>,
) {
    let starts = &*lists.starts;
    let totals = &*lists.totals;
    let counts = &*lists.counts;
    let times = &*lists.times;
    let peaks = &*lists.peaks;
    let commands = &*lists.commands;
    let bytes = &*lists.bytes;
    let heard = &*lists.heard;
    let seen = ShownLists {
        starts,
        totals,
        counts,
        times,
        peaks,
        commands,
        bytes,
        heard,
    };
    text_shown::show(
        output,
        answer,
        full,
        inputs,
        buckets_in(inputs),
        alone.window,
        alone.hold,
        seen,
    );
}

// ---- calls alone
// How many bytes of a file a line brings: they go to the output buffer, whose answers are written out first.
fn bring<W: Write>(output: &mut Output<'_, W>, request: Lone, s: &[u8]) -> usize {
    let Lone::ReadDelays(at) = request else {
        return 0;
    };
    output.flush();
    file_at(s, at, output.printer.out)
}

// A call alone, or what a line crafts of the window and the hold alone.
fn lone(
    request: Lone,
    kept: Alone,
    short: bool,
    s: &[u8],
    file: &[u8],
    lists: &mut Lists<'_>,
) -> Left<Alone> {
    match request {
        Lone::Number(call) => Left {
            left: kept,
            answer: text_alone::number(call),
        },
        Lone::Window(call) => on_window(call, kept, short, lists),
        Lone::Hold(call) => on_hold(call, kept, short, lists),
        Lone::Coalesce(call) => text_alone::on_coalesce(call, kept),
        Lone::Schedule(call) => text_alone::on_schedule(call, kept),
        Lone::ReadDelays(_) => {
            let flows = &mut *lists.bytes;
            let delays = &mut *lists.heard;
            Left {
                left: kept,
                answer: text_alone::read_delays(file, short, flows, delays),
            }
        }
        Lone::WindowSet(asked) => {
            let mut window = kept.window;
            craft_rows(s, asked.at, window.buckets, lists);
            window.seconds = asked.seconds;
            Left {
                left: Alone { window, ..kept },
                answer: Answer::Done,
            }
        }
        Lone::WindowSum(asked) => {
            text_crafted::sum(asked, Places::LONE, lists.sums);
            Left {
                left: kept,
                answer: Answer::Done,
            }
        }
        Lone::HoldSet(asked) => {
            let hold = asked.hold;
            craft_peaks(s, asked.at, hold.peaks, lists);
            Left {
                left: Alone { hold, ..kept },
                answer: Answer::Done,
            }
        }
    }
}

// ---- calls on a supervisor
// The delays that `new` loads: their flows go to the output buffer, whose answers are written out first.
fn load<W: Write>(output: &mut Output<'_, W>, call: Change, s: &[u8], lists: &mut Lists<'_>) {
    if let Change::New(asked) = call {
        output.flush();
        loads_at(
            s,
            asked.loads,
            asked.loaded,
            output.printer.out,
            lists.heard,
        );
    }
}

impl<W: Write> Program<'_, W> {
    // A call on a supervisor, or what a line crafts of its record.
    fn called(&mut self, call: Call, short: bool, s: &[u8]) -> Answer {
        let inputs = self.inputs;
        match call {
            // A dry tick is read, and nothing is done.
            Call::Change(Change::Tick(asked)) if asked.dry => Answer::Dry,
            Call::Change(call) => {
                load(&mut self.output, call, s, &mut self.lists);
                let flows = self.output.printer.first(LOADED);
                let done = change(call, inputs, short, s, flows, &mut self.lists);
                self.inputs = done.left;
                done.answer
            }
            Call::Ask(call) => ask(call, inputs, short, &mut self.lists),
            Call::Put(asked) => {
                self.inputs = craft(asked, inputs, s, &mut self.lists);
                Answer::Done
            }
        }
    }

    // ---- lines
    fn flushed(&mut self) {
        self.output.room();
        self.output.printer.put_text(b"flushed\n");
        self.state.more = self.output.flush();
    }

    fn show(&mut self, answer: Answer) {
        let state = self.state;
        show(
            &mut self.output,
            answer,
            state.full,
            self.inputs,
            state.alone,
            &self.lists,
        );
    }

    // A line becomes a request, the request an answer, the answer a line.
    fn answer(&mut self, s: &[u8]) {
        let state = self.state;
        let read = text_read::read(s, known(self.inputs, state.alone), self.lists.heard);
        match read.request {
            Request::Bad => self.show(Answer::BadLine),
            Request::Flush => self.flushed(),
            Request::Full(full) => {
                self.state = State { full, ..state };
                self.show(Answer::Done);
            }
            Request::Alone(request) => {
                let length = bring(&mut self.output, request, s);
                let file = self.output.printer.first(length);
                let done = lone(request, state.alone, read.short, s, file, &mut self.lists);
                let alone = done.left;
                self.state = State { alone, ..state };
                self.show(done.answer);
            }
            Request::On(call) => {
                let answer = self.called(call, read.short, s);
                self.show(answer);
            }
        }
    }

    // No line was found: what was answered is written, and more is read, unless there is none.
    fn unfound<R: Read>(&mut self, reader: &mut R, input: &mut Input) {
        let written = self.output.flush();
        let state = self.state;
        let mut cursor = state.cursor;
        if cursor.ended {
            self.state = State {
                more: false,
                ..state
            };
            return;
        }
        cursor.more(reader, input);
        self.state = State {
            more: written,
            cursor,
            ..state
        };
    }

    // Answers line after line.
    fn run<R: Read>(&mut self, reader: &mut R, input: &mut Input) {
        for _turn in 0..u64::MAX {
            let state = self.state;
            if !state.more {
                return;
            }
            let mut cursor = state.cursor;
            let found = cursor.look(input);
            if let Some(found) = found {
                let s = cursor.line(input, found);
                cursor.pass(found);
                self.state = State { cursor, ..state };
                self.answer(s);
            } else {
                self.state = State { cursor, ..state };
                self.unfound(reader, input);
            }
        }
    }
}

fn main(rt: HostRuntime) {
    let mut reader = rt.stdin();
    let mut writer = rt.stdout();
    let mut input = [0u8; 1_048_640];
    let mut out = [0u8; 262_144];
    let mut starts = [0u64; 187];
    let mut totals = [0u64; 187];
    let mut counts = [0u32; 765_952];
    let mut sums = [0u64; 69_632];
    let mut times = [0u64; 10_200];
    let mut peaks = [0u32; 10_200];
    let mut commands = [0u32; 192];
    let mut bytes = [0u8; 1_287];
    let mut heard = [0u32; 524_288];
    let printer = Printer {
        out: &mut out,
        place: 0,
    };
    let output = Output {
        writer: &mut writer,
        printer,
    };
    let lists = Lists {
        starts: &mut starts,
        totals: &mut totals,
        counts: &mut counts,
        sums: &mut sums,
        times: &mut times,
        peaks: &mut peaks,
        commands: &mut commands,
        bytes: &mut bytes,
        heard: &mut heard,
    };
    let mut program = Program {
        output,
        lists,
        state: begin(),
        inputs: text_called::begin(),
    };
    program.run(&mut reader, &mut input);
}
