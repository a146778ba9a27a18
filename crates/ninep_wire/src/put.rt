//! Writers of fields: each writes from an offset on, and returns the offset after what it wrote.

ghost use Rattle.std.specs.Prelude.{◌≡◌, ◌+◌, ◌*◌, ◌<◌, ◌≤◌, ◌^◌, length};
ghost use Rattle.std.specs.List.{flat_map, AllByRecursion};
ghost use Rattle.tree_model.specs.Wire.{number, string, IsString, qid, IsQid};
ghost use Rattle.ninep_wire.specs.Writing.{Wrote};

use tree_model::Qid;

fn put_bytes(out: &mut [u8], at: usize, bytes: &[u8]) -> usize
    requires { at + length bytes.now ≤ length out.old }
    ensures { Wrote out.old out.new at result bytes.now }
{
    let end = at + bytes.len();
    out[at..end].copy_from_slice(bytes);
    end
}

pub fn put_u8(out: &mut [u8], at: usize, value: u8) -> usize
    requires { at + 1 ≤ length out.old }
    ensures bytes { Wrote out.old out.new at result (number 1 value) }
    ensures formed { value < 2 ^ 8 }
{
    put_bytes(out, at, &value.to_le_bytes())
}

pub fn put_u16(out: &mut [u8], at: usize, value: u16) -> usize
    requires { at + 2 ≤ length out.old }
    ensures bytes { Wrote out.old out.new at result (number 2 value) }
    ensures formed { value < 2 ^ 16 }
{
    put_bytes(out, at, &value.to_le_bytes())
}

pub fn put_u32(out: &mut [u8], at: usize, value: u32) -> usize
    requires { at + 4 ≤ length out.old }
    ensures bytes { Wrote out.old out.new at result (number 4 value) }
    ensures formed { value < 2 ^ 32 }
{
    put_bytes(out, at, &value.to_le_bytes())
}

pub fn put_u64(out: &mut [u8], at: usize, value: u64) -> usize
    requires { at + 8 ≤ length out.old }
    ensures bytes { Wrote out.old out.new at result (number 8 value) }
    ensures formed { value < 2 ^ 64 }
{
    put_bytes(out, at, &value.to_le_bytes())
}

pub fn put_string(out: &mut [u8], at: usize, text: &str) -> usize
    requires fits { length text.now < 2 ^ 16 }
    requires room { at + 2 + length text.now ≤ length out.old }
    ensures bytes { Wrote out.old out.new at result (string text.now) }
    ensures formed { IsString text.now }
{
    let start = put_u16(out, at, text.len() as u16);
    put_bytes(out, start, text.as_bytes())
}

pub fn put_qid(out: &mut [u8], at: usize, value: &Qid) -> usize
    requires { at + 13 ≤ length out.old }
    ensures bytes { Wrote out.old out.new at result (qid value.now) }
    ensures formed { IsQid value.now }
{
    let at = put_u8(out, at, value.kind);
    let at = put_u32(out, at, value.version);
    put_u64(out, at, value.path)
}

pub fn put_qids(out: &mut [u8], at: usize, qids: &[Qid]) -> usize
    requires { at + 13 * length qids.now ≤ length out.old }
    ensures bytes { Wrote out.old out.new at result (flat_map qid qids.now) }
    ensures count { result ≡ at + 13 * length qids.now }
    ensures formed { AllByRecursion IsQid qids.now }
{
    let mut end = at;
    for value in qids {
        end = put_qid(out, end, value);
    }
    end
}
