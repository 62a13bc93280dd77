//! The shard of an id.
ghost use Rattle.std.specs.Prelude.{◌≡◌, ◌<◌, ◌≤◌};
ghost use Rattle.es_types.specs.Homes.{hash_of, shard_of};

use crate::DocId;

/// The shard of a document among so many: the hash FNV-1a of its id in 32 bits, modulo their number.
pub fn shard_of(id: &DocId, shards: u32) -> u32
    requires { 1 ≤ shards }
    ensures is { result ≡ shard_of id.now shards }
    ensures below { result < shards }
{
    hash_of(id.text().as_str().as_bytes()) % shards
}

fn hash_of(bytes: &[u8]) -> u32
    ensures { result ≡ hash_of bytes.now }
{
    let mut hash: u32 = 2_166_136_261;
    for byte in bytes {
        hash = (hash ^ u32::from(*byte)).wrapping_mul(16_777_619);
    }
    hash
}
