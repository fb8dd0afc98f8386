// One delta of a binary AIGER file as nine bytes: eight for its value, and one for the bytes that it took.
#![tactic(auto)]

ghost use Rattle.std.specs.Prelude.{◌≡◌, ◌≤◌, length};
ghost use Rattle.delta_bytes.specs.Delta.{nine_bytes, delta_number, delta_bytes};

// One delta at a place: 0, with the value, low byte first, in the first eight lent bytes and the count of bytes used in the ninth; or a
// refusal's number, and the lent bytes as they were. Fewer than nine lent bytes is refusal 3, tested first.
#[tactic(auto, unfolding(crate::specs::Delta::delta_number, crate::specs::Delta::delta_bytes))]
pub fn put_delta(s: &[u8], at: usize, reference: u64, out: &mut [u8]) -> u32
    ensures { (result ≡ delta_number s.now at reference out.old)
        × (out.new ≡ delta_bytes s.now at reference out.old) }
{
    if out.len() < 9 {
        return 3;
    }
    match token::delta_code(s, at, reference) {
        Ok(code) => {
            put_value(out, code.value, code.used);
            0
        }
        Err(refused) => u32::from(refused.why),
    }
}

// The eight low bytes of a value, and the count of bytes used.
fn put_value(out: &mut [u8], value: u64, used: usize)
    requires { (9 ≤ length out.old) × (used ≤ 8) }
    ensures { out.new ≡ nine_bytes value used out.old }
{
    out[..8].copy_from_slice(&value.to_le_bytes());
    out[8] = used as u8;
}
