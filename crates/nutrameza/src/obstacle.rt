// What stands in the way of an ask.
ghost use Rattle.std.specs.Prelude.{◌≡◌, length};
ghost use Rattle.model.specs.Line.{SESSIONS};
ghost use Rattle.model.specs.Run.{step, obstacle_by, returned, answered};

// Tells what stands in the way of an ask with these bounds, as the first of four kinds that holds: the extra is the
// kind plus 8 times the permission or, of an exclusion, its kind plus 4 times its n; the buffer is filled with two role
// sets of 8 bytes. No session changes; 20 where nothing stands in the way.
pub fn nutrameza_obstacle(
    image: &[u8],
    ledger: &[u8],
    user: u64,
    session: u64,
    lower: &[u8],
    upper: &[u8],
    roles: &mut [u8],
) -> u64
    ensures { let e = step SESSIONS image.now ledger.now
        (obstacle_by user session lower.now upper.now (length roles.old)) in
        (result ≡ returned e.reply) × (roles.new ≡ answered roles.old e.reply) }
{
    calls_obstacle::tell_obstacle(image, ledger, user, session, lower, upper, roles)
}
