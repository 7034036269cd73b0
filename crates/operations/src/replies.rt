//! The forms of a reply.
ghost use Rattle.std.specs.Prelude.{◌≡◌, Some, [], ◌∷◌};
ghost use Rattle.operations.specs.Row.{reply_of, refused, granted, nothing, tells, gives};

use cap_format::{Cap, Code, Item, Reply};

/// A refusal, which tells nothing else.
pub fn refuse(code: Code) -> Reply
    ensures { result ≡ reply_of (refused code) }
{
    Reply {
        code,
        words: [0; 3],
        cap: None,
        changed: None,
    }
}

/// Ok, with nothing to tell.
pub fn done() -> Reply
    ensures { result ≡ reply_of (granted nothing) }
{
    refuse(Code::Ok)
}

/// Ok, with the words w2 to w4.
pub fn tell(w2: u32, w3: u32, w4: u32) -> Reply
    ensures { result ≡ reply_of (granted (tells w2 w3 w4)) }
{
    Reply {
        words: [w2, w3, w4],
        ..done()
    }
}

/// Ok, with a capability, which may be Null.
pub fn hand_over(cap: Cap) -> Reply
    ensures { result ≡ reply_of (granted (gives cap)) }
{
    Reply {
        cap: Some(cap),
        ..done()
    }
}

/// Ok, and this item changed.
pub fn item_changed(item: Item) -> Reply
    ensures { result ≡ record (reply_of (granted nothing)) { changed = Some item } }
{
    Reply {
        changed: Some(item),
        ..done()
    }
}
