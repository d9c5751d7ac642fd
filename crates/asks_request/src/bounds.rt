// The bounds of an ask as permission sets: 32 bytes read into four words.
ghost use Rattle.std.specs.Prelude.{◌≡◌, length, MatchOption};
ghost use Rattle.model.specs.Bytes.{number};
ghost use Rattle.sets.specs.Words.{value};
ghost use Rattle.asks_request.specs.Refusals.{BoundedBy, Unsized, Sized};

// The bounds of an ask, as permission sets.
#[derive(Clone, Copy)]
pub struct Bounds {
    pub lower: [u64; 4],
    pub upper: [u64; 4],
}

// The set that bytes hold, if they are 32.
fn bound(bytes: &[u8]) -> Option<[u64; 4]>
    ensures { MatchOption result (Unsized bytes.now) (λ set. Sized bytes.now (value set)) }
{
    if bytes.len() != 32 {
        return None;
    }
    Some([
        octets::get_u64(bytes, 0),
        octets::get_u64(bytes, 8),
        octets::get_u64(bytes, 16),
        octets::get_u64(bytes, 24),
    ])
}

// The bounds read, where both are 32 bytes long.
pub fn bounds_of(lower: &[u8], upper: &[u8]) -> Option<Bounds>
    ensures { BoundedBy result lower.now upper.now }
{
    Some(Bounds {
        lower: bound(lower)?,
        upper: bound(upper)?,
    })
}
