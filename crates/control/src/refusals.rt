ghost use Rattle.std.specs.Prelude.{◌≡◌, ◌↔◌, IsTrue, codes};
ghost use Rattle.control.specs.Answer.{IsRefusal, IsRefused, IsRefusedChange};

/// Whether the answer says that what the line asked for was not done, or that the line is none.
pub fn is_refused(answer: &[u8]) -> bool
    ensures { IsTrue result ↔ IsRefused answer.now }
{
    if is_refused_change(answer) {
        return true;
    }
    is_refusal(answer)
}

fn is_refused_change(answer: &[u8]) -> bool
    ensures { IsTrue result ↔ IsRefusedChange answer.now }
{
    answer.starts_with(b"refused ")
}

fn is_refusal(answer: &[u8]) -> bool
    ensures { IsTrue result ↔ IsRefusal answer.now }
{
    if answer == b"missing".as_slice() {
        return true;
    }
    if answer == b"wrong kind".as_slice() {
        return true;
    }
    if answer == b"ignored".as_slice() {
        return true;
    }
    if answer == b"not allowed".as_slice() {
        return true;
    }
    if answer == b"bad line".as_slice() {
        return true;
    }
    if answer == b"line too long".as_slice() {
        return true;
    }
    answer == b"not a session".as_slice()
}

/// Whether the server took the connection, and then closed it because it has as many sessions as it may.
pub fn is_turned_away(answer: &[u8]) -> bool
    ensures { IsTrue result ↔ (answer.now ≡ codes "too many sessions") }
{
    answer == b"too many sessions".as_slice()
}
