//! A string, cut at pages.
ghost use Rattle.std.specs.Prelude.{◌≡◌, ◌+◌, ◌≤◌, ◌<◌, ◌^◌, length};
ghost use Rattle.std.specs.List.{All};
ghost use Rattle.string_move.specs.Spans.{spans, first_size, IsInOnePage, Cover};

use crate::span::Span;
use arrayvec::ArrayVec;
use std::marker::Model;

/// At most 18 spans of addresses, in their order.
#[derive(Drop)]
pub struct Spans {
    list: ArrayVec<Span, 18>,
}

impl Model for Spans {
    ghost use Rattle.std.specs.Prelude.{List};
    ghost use Rattle.string_move.specs.declared.span.Span.{Span};

    ghost Value = { List Span };

    ghost view = { λ s. s.list.items };
}

impl Spans {
    ghost use Rattle.std.specs.Prelude.{◌++◌, ◌∷◌, []};

    fn new() -> Spans
        ensures { result ≡ [] }
    {
        Spans {
            list: ArrayVec::new(),
        }
    }

    fn push(&mut self, span: Span)
        requires { length self.old < 18 }
        ensures { self.new ≡ self.old ++ span ∷ [] }
    {
        self.list.push(span);
    }

    pub fn as_slice(&self) -> &[Span]
        ensures value { result.now ≡ self.now }
        ensures bound { length self.now ≤ 18 }
    {
        self.list.as_slice()
    }
}

/// The spans of a string of at most 65,536 bytes: it is cut at multiples of 4,096.
pub fn cut(at: u32, size: u32) -> Spans
    requires longest { size ≤ 65536 }
    requires ends { at + size ≤ 2 ^ 32 }
    ensures value { result ≡ spans at size }
    ensures most { length result ≤ 17 }
{
    let mut list = Spans::new();
    let mut next = u64::from(at);
    let mut left = size;
    while left > 0 {
        let address = next as u32;
        let size = first_size(address, left);
        list.push(Span { address, size });
        next += u64::from(size);
        left -= u32::from(size);
    }
    list
}

/// How many of these bytes lie before the next multiple of 4,096.
fn first_size(at: u32, len: u32) -> u16
    ensures value { result ≡ first_size at len }
    ensures most { result ≤ 4096 }
{
    len.min(4096 - at % 4096) as u16
}
