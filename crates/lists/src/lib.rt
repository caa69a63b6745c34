// Bytes in slices: numbers with their lowest byte first, and writes over a part.
#![tactic(auto)]

ghost use Rattle.std.specs.Prelude.{◌≡◌, ◌+◌, ◌^◌, ◌<◌, ◌≤◌, length};
ghost use Rattle.lists.specs.Bytes.{value};
ghost use Rattle.lists.specs.Writes.{over};

// Writes `bytes` over the part of `block` from `at` on.
pub fn put(block: &mut [u8], at: usize, bytes: &[u8])
    requires { at + length bytes.now ≤ length block.old }
    ensures { block.new ≡ over block.old at bytes.now }
{
    block[at..at + bytes.len()].copy_from_slice(bytes);
}

// The number that stands in the `width` bytes of `block` from `at` on, the lowest first.
pub fn field(block: &[u8], at: usize, width: usize) -> u64
    requires within { at + width ≤ length block.now }
    requires narrow { width ≤ 8 }
    ensures value { result ≡ value width block.now at }
    ensures below { result < 256 ^ width }
{
    let mut bytes = [0; 8];
    bytes[..width].copy_from_slice(&block[at..at + width]);
    u64::from_le_bytes(bytes)
}
