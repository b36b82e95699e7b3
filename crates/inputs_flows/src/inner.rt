// A flow read from its bytes. It asks that they are there.
ghost use Rattle.std.specs.Prelude.{◌≡◌, ◌+◌, ◌≤◌, length};
ghost use Rattle.rules_record.specs.Flows.{flow_from};

use rules_record::Flow;

// The flow whose 16 bytes stand from a place on.
pub fn flow_from(bytes: &[u8], place: usize) -> Flow
    requires { place + 16 ≤ length bytes.now }
    ensures { result ≡ flow_from bytes.now place }
{
    let high = byte_order::inner::big_eight(bytes, place);
    let low = byte_order::inner::big_eight(bytes, place + 8);
    Flow { high, low }
}
