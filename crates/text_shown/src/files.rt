// A delay file: the flows and the delays that were read, or the bytes that were written.
use crate::words::Word;
use inputs_flows::inner::flow_from;
use std::io::Write;
use text_lines::Output;

// The bytes of a flow.
const FLOW_BYTES: usize = 16;

// The first n flows, each with its delay; nothing past the flows that have room.
pub(crate) fn show_delays<W: Write>(
    output: &mut Output<'_, W>,
    n: usize,
    flows: &[u8],
    delays: &[u32],
) {
    for (flow, delay) in flows.chunks_exact(FLOW_BYTES).zip(delays.iter()).take(n) {
        Word::Flow(flow_from(flow, 0), b'=', *delay as u64).put(output);
    }
}

// The first n bytes as one word.
pub(crate) fn show_file<W: Write>(output: &mut Output<'_, W>, n: usize, file: &[u8]) {
    output.room();
    output.printer.put_byte(b' ');
    for byte in file.iter().take(n) {
        Word::Byte(*byte).put(output);
    }
}
