// Document 01's examples and some limits, run on the library; crates/examples/stdout holds what the Rust answers, where it has an answer.
#![tactic(auto)]

use policy::DelayPolicy;
use std::io;

// A name, then the bits of a double; nothing for one that is no number.
fn double(rt: &impl Print, name: &str, value: f64) -> io::Result<()> {
    if value.is_nan() {
        return println!(rt; "{name}");
    }
    println!(rt; "{name}{:016x}", value.to_bits())
}

// A need, or the number of the refusal.
fn need(rt: &impl Print, name: &str, policy: DelayPolicy, lag: u32) -> io::Result<()> {
    match policy.need_of(lag) {
        Ok(value) => println!(rt; "{name}{value}"),
        Err(refusal) => println!(rt; "{name}refused {}", refusal.number()),
    }
}

fn doubles(rt: &impl Print) -> io::Result<()> {
    println!(rt; "Doubles")?;
    double(rt, "  ms 0: ", doubles::ms(0))?;
    double(rt, "  ms 48: ", doubles::ms(48))?;
    double(rt, "  ms 4294967295: ", doubles::ms(4294967295))?;
    println!(rt; "  samples 0.03125: {}", doubles::samples(0.03125))?;
    println!(rt; "  samples 0.010416: {}", doubles::samples(0.010416))?;
    println!(rt; "  samples 0.010417: {}", doubles::samples(0.010417))?;
    println!(rt; "  samples -0.0: {}", doubles::samples(-0.0))?;
    println!(rt; "  samples -5.0: {}", doubles::samples(-5.0))?;
    println!(rt; "  samples NaN: {}", doubles::samples(f64::NAN))?;
    println!(rt; "  samples infinity: {}", doubles::samples(f64::INFINITY))?;
    println!(rt;
        "  samples 89478485.3125: {}",
        doubles::samples(89478485.3125)
    )?;
    println!(rt; "  samples 1e300: {}", doubles::samples(1.0e300))?;
    println!(rt;
        "  samples of the least double: {}",
        doubles::samples(5.0e-324)
    )
}

// Offset 480, maximum 4,800, margin 96, hold 30 s, window 10 s.
fn policy(share: f64) -> DelayPolicy {
    DelayPolicy {
        read_offset: 480,
        delay_max: 4800,
        hold: 30_000_000_000,
        window: 10_000_000_000,
        margin: 96,
        margin_share: share,
    }
}

fn needs(rt: &impl Print) -> io::Result<()> {
    println!(rt; "Need, share 0.5")?;
    let half = policy(0.5);
    need(rt, "  need 0: ", half, 0)?;
    need(rt, "  need 480: ", half, 480)?;
    need(rt, "  need 485: ", half, 485)?;
    need(rt, "  need 5280: ", half, 5280)?;
    need(rt, "  need 4294967295: ", half, 4294967295)?;
    println!(rt; "Need, other shares")?;
    need(
        rt,
        "  need 481, share just below 0.5: ",
        policy(0.49999999999999994),
        481,
    )?;
    need(rt, "  need 480, share 10: ", policy(10.0), 480)?;
    need(rt, "  need 480, share 10.5: ", policy(10.5), 480)?;
    need(rt, "  need 480, share NaN: ", policy(f64::NAN), 480)?;
    need(rt, "  need 485, share -0.0: ", policy(-0.0), 485)
}

fn main(rt: HostRuntime) -> io::Result<()> {
    doubles(&rt)?;
    needs(&rt)
}
