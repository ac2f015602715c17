// The bucket of a name, one of 199, by a hash of all its bytes; and the end of a name found and its hash taken in one pass.
#![tactic(auto)]

ghost use Rattle.std.specs.Prelude.{◌≡◌, ◌+◌};
ghost use Rattle.hashing.specs.Hashing.{hash_on, bucket_at, bucket_of, ScannedFrom};

// Where a name ends, and its hash.
#[derive(Clone, Copy)]
pub struct Scanned {
    pub end: usize,
    pub hash: u32,
}

// The hash goes on with a byte: 32 bits of the product.
pub fn hash_on(hash: u32, x: u8) -> u32
    ensures { result ≡ hash_on hash x }
{
    hash.wrapping_add(x as u32).wrapping_mul(2654435773)
}

// The bucket of a hash.
pub fn bucket_at(hash: u32) -> usize
    ensures { result ≡ bucket_at hash }
{
    (hash as u64 * 199 / 4294967296) as usize
}

// The bucket of a name.
pub fn bucket_of(name: &[u8]) -> usize
    ensures { result ≡ bucket_of name.now }
{
    let hash = name.iter().fold(0, |hash, x| hash_on(hash, *x));
    bucket_at(hash)
}

// Where a name ends that goes on at a place; its hash goes on with these bytes.
pub fn scan_name(s: &[u8], from: usize, hash: u32) -> Scanned
    ensures { ScannedFrom s.now from hash result }
{
    let mut h = hash;
    for i in from..s.len() {
        let x = s[i];
        if !ascii::continues_name(x) {
            return Scanned { end: i, hash: h };
        }
        h = hash_on(h, x);
    }
    Scanned {
        end: from.max(s.len()),
        hash: h,
    }
}
