// Calls of the clock helpers with their answers, boundaries and refusals among them: a line for the call and a line for its answer,
// as the oracle of the Rust reads and writes them.
#![tactic(auto)]

use refusals::Refusal;
use sources::{Down, Schedule};
use state::{Coalesce, Taken};
use std::{fmt, io};

// `-` where there is none. It stands in clock_examples and in hold_examples: they share no crate that shows anything, and one for this alone is no plainer.
#[derive(Clone, Copy)]
struct OrNone<T>(Option<T>);

impl<T: fmt::Display> fmt::Display for OrNone<T> {
    fn fmt<W: fmt::Write>(&self, f: &mut fmt::Formatter<W>) -> fmt::Result {
        match &self.0 {
            Some(x) => write!(f, "{x}"),
            None => write!(f, "-"),
        }
    }
}

// Until when the queries are down, and the wait after it.
#[derive(Clone, Copy)]
struct Wait(Down);

impl fmt::Display for Wait {
    fn fmt<W: fmt::Write>(&self, f: &mut fmt::Formatter<W>) -> fmt::Result {
        let Down { until, wait } = self.0;
        write!(f, "{until}:{wait}")
    }
}

fn due_of(coalesce: Coalesce) -> OrNone<u64> {
    OrNone(coalesce.due)
}

fn down_of(schedule: Schedule) -> OrNone<Wait> {
    OrNone(schedule.query_down.map(Wait))
}

// A yes as 1, a no as 0.
fn bit(yes: bool) -> u8 {
    yes as u8
}

// The line of an answer: what is shown of its value, or the number of the check that said no.
fn answer_line<T: fmt::Display + Drop>(
    rt: &impl Print,
    answer: Result<T, Refusal>,
) -> io::Result<()> {
    match answer {
        Ok(shown) => println!(rt; "ok {shown}"),
        Err(refusal) => println!(rt; "refused {}", refusal.number()),
    }
}

fn index_at(rt: &impl Print, ns: u64) -> io::Result<()> {
    println!(rt; "index_at {ns}")?;
    answer_line(rt, timing::index_at(ns))
}

fn time_of(rt: &impl Print, index: u64) -> io::Result<()> {
    println!(rt; "time_of {index}")?;
    answer_line(rt, timing::time_of(index))
}

fn coalesce_line(rt: &impl Print, coalesce: Coalesce) -> io::Result<Coalesce> {
    println!(rt; "co_set {}", due_of(coalesce))?;
    println!(rt; "ok")?;
    Ok(coalesce)
}

fn changed(rt: &impl Print, coalesce: Coalesce, time: u64, delay: u64) -> io::Result<Coalesce> {
    println!(rt; "co_changed {time} {delay}")?;
    let change = coalesce.changed(time, delay);
    answer_line(rt, change.map(due_of))?;
    Ok(change.unwrap_or(coalesce))
}

fn pending(rt: &impl Print, coalesce: Coalesce) -> io::Result<()> {
    println!(rt; "co_pending")?;
    answer_line(rt, coalesce.pending().map(bit))
}

// What a take leaves of this record, with its line.
fn taken(
    rt: &impl Print,
    coalesce: Coalesce,
    answer: Result<Taken, Refusal>,
) -> io::Result<Coalesce> {
    match answer {
        Ok(taken) => {
            println!(rt; "ok {} {}", bit(taken.write), due_of(taken.coalesce))?;
            Ok(taken.coalesce)
        }
        Err(refusal) => {
            println!(rt; "refused {}", refusal.number())?;
            Ok(coalesce)
        }
    }
}

fn take_due(rt: &impl Print, coalesce: Coalesce, time: u64) -> io::Result<Coalesce> {
    println!(rt; "co_take_due {time}")?;
    taken(rt, coalesce, coalesce.take_due(time))
}

fn take(rt: &impl Print, coalesce: Coalesce) -> io::Result<Coalesce> {
    println!(rt; "co_take")?;
    taken(rt, coalesce, coalesce.take())
}

fn schedule_line(rt: &impl Print, schedule: Schedule) -> io::Result<Schedule> {
    println!(rt; "q_set {}", down_of(schedule))?;
    println!(rt; "ok")?;
    Ok(schedule)
}

fn down_until(rt: &impl Print, until: u64, wait: u64) -> io::Result<Schedule> {
    schedule_line(
        rt,
        Schedule {
            query_down: Some(Down { until, wait }),
        },
    )
}

fn query_up(rt: &impl Print, schedule: Schedule, time: u64) -> io::Result<()> {
    println!(rt; "q_up {time}")?;
    answer_line(rt, schedule.query_up(time).map(bit))
}

fn query_failed(rt: &impl Print, schedule: Schedule, time: u64) -> io::Result<Schedule> {
    println!(rt; "q_failed {time}")?;
    match schedule.query_failed(time) {
        Ok(failed) => {
            println!(rt; "ok {} {}", failed.wait, down_of(failed.schedule))?;
            Ok(failed.schedule)
        }
        Err(refusal) => {
            println!(rt; "refused {}", refusal.number())?;
            Ok(schedule)
        }
    }
}

fn timing_lines(rt: &impl Print) -> io::Result<()> {
    index_at(rt, 0)?;
    index_at(rt, 20_833)?;
    index_at(rt, 20_834)?;
    index_at(rt, 1_000_000_000)?;
    index_at(rt, 3_999_999_999_999_999_999)?;
    index_at(rt, 4_000_000_000_000_000_000)?;
    index_at(rt, 4_000_000_000_000_000_001)?;
    time_of(rt, 0)?;
    time_of(rt, 1)?;
    time_of(rt, 2)?;
    time_of(rt, 3)?;
    time_of(rt, 48_000)?;
    time_of(rt, 885_443_715_538_058)?;
    time_of(rt, 885_443_715_538_059)?;
    time_of(rt, 18_446_744_073_709_551_615)
}

fn state_lines(rt: &impl Print) -> io::Result<()> {
    let mut coalesce = coalesce_line(rt, Coalesce::new())?;
    pending(rt, coalesce)?;
    coalesce = take(rt, coalesce)?;
    coalesce = changed(rt, coalesce, 1_000, 600_000_000_001)?;
    coalesce = changed(rt, coalesce, 4_000_000_000_000_000_001, 0)?;
    pending(rt, coalesce)?;
    coalesce = changed(rt, coalesce, 1_000, 500)?;
    coalesce = changed(rt, coalesce, 1_200, 500)?;
    pending(rt, coalesce)?;
    coalesce = take_due(rt, coalesce, 1_499)?;
    coalesce = take_due(rt, coalesce, 4_000_000_000_000_000_001)?;
    coalesce = take_due(rt, coalesce, 1_500)?;
    coalesce = take_due(rt, coalesce, 1_500)?;
    coalesce = changed(rt, coalesce, 4_000_000_000_000_000_000, 600_000_000_000)?;
    coalesce = take_due(rt, coalesce, 4_000_000_000_000_000_000)?;
    coalesce = take(rt, coalesce)?;
    pending(rt, coalesce)?;
    coalesce = coalesce_line(
        rt,
        Coalesce {
            due: Some(4_000_000_600_000_000_001),
        },
    )?;
    pending(rt, coalesce)?;
    coalesce = changed(rt, coalesce, 0, 600_000_000_001)?;
    coalesce = changed(rt, coalesce, 4_000_000_000_000_000_001, 0)?;
    coalesce = take_due(rt, coalesce, 4_000_000_000_000_000_001)?;
    take(rt, coalesce)?;
    Ok(())
}

fn sources_lines(rt: &impl Print) -> io::Result<()> {
    let mut schedule = schedule_line(rt, Schedule::new())?;
    query_up(rt, schedule, 0)?;
    schedule = query_failed(rt, schedule, 1_000_000_000)?;
    query_up(rt, schedule, 5_999_999_999)?;
    query_up(rt, schedule, 6_000_000_000)?;
    schedule = query_failed(rt, schedule, 6_000_000_000)?;
    schedule = query_failed(rt, schedule, 16_000_000_000)?;
    schedule = query_failed(rt, schedule, 36_000_000_000)?;
    schedule = query_failed(rt, schedule, 76_000_000_000)?;
    schedule = query_failed(rt, schedule, 136_000_000_000)?;
    schedule = query_failed(rt, schedule, 4_000_000_000_000_000_001)?;
    query_up(rt, schedule, 4_000_000_000_000_000_001)?;
    query_up(rt, schedule, 195_999_999_999)?;
    query_up(rt, schedule, 196_000_000_000)?;
    schedule = query_failed(rt, schedule, 4_000_000_000_000_000_000)?;
    query_up(rt, schedule, 4_000_000_000_000_000_000)?;
    schedule = down_until(rt, 0, 30_000_000_000)?;
    schedule = query_failed(rt, schedule, 0)?;
    schedule = down_until(rt, 0, 29_999_999_999)?;
    schedule = query_failed(rt, schedule, 0)?;
    schedule = down_until(rt, 7, 0)?;
    schedule = query_failed(rt, schedule, 7)?;
    schedule = down_until(rt, 4_000_000_600_000_000_001, 0)?;
    query_up(rt, schedule, 4_000_000_000_000_000_001)?;
    schedule = down_until(rt, 0, 60_000_000_001)?;
    query_up(rt, schedule, 0)?;
    query_failed(rt, schedule, 0)?;
    Ok(())
}

fn main(rt: HostRuntime) -> io::Result<()> {
    timing_lines(&rt)?;
    state_lines(&rt)?;
    sources_lines(&rt)
}
