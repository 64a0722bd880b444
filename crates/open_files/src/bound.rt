ghost use Rattle.std.specs.Prelude.{◌≡◌, ◌-◌, ◌≤◌, ◌↔◌, IfSome, IsNone, min};

/// As many of the wanted connections as a limit of open files leaves beside those that are reserved for other files. It is none if
/// the limit leaves none.
pub fn connections_within(limit: u64, wanted: u32, reserved: u32) -> Option<u32>
    ensures count { IfSome result (λ count. count ≡ min wanted (limit - reserved)) }
    ensures none { IsNone result ↔ (limit ≤ reserved) }
{
    let reserved = u64::from(reserved);
    if limit <= reserved {
        return None;
    }
    Some(u64::from(wanted).min(limit - reserved) as u32)
}
