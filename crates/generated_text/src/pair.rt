//! The lines of a pair in the generated text.
ghost use Rattle.std.specs.Prelude.{◌≡◌, ◌≤◌, ◌<◌, ◌+◌, ◌++◌, [], length, decimal, codes};
ghost use Rattle.coy_text.specs.Numeral.{hex_text};
ghost use Rattle.generated_text.specs.Text.{code_line, double_line, call_text, counting_text, receiving_text, answering_text, places_text, register_line, registers_text, pair_text};

use coy_text::LineBuf;

/// Appends the lines of a pair.
pub(crate) fn push_pair(line: &mut LineBuf, calls: u32, i: u8)
    requires empty { line.old ≡ [] }
    requires pair { i < 63 }
    ensures text { line.new ≡ line.old ++ pair_text calls i }
    ensures some { 1 ≤ length line.new }
{
    let client = 2 * i;
    let server = client + 1;
    push_call(line, client);
    push_counting(line, client);
    push_receiving(line, server);
    push_answering(line, server);
    push_places(line, client, server);
    push_registers(line, calls, client, server);
}

/// Appends a decimal number of at most three digits.
#[tactic(auto, using(crate::proofs::Numbers::length_decimal_8))]
fn push_short(line: &mut LineBuf, number: u8)
    requires { length line.old ≤ 1000 }
    ensures text { line.new ≡ line.old ++ decimal number }
    ensures len { length line.new ≤ length line.old + 3 }
{
    line.push_dec(number as u64);
}

/// Appends an instruction in a page.
#[tactic(auto, unfolding(crate::specs::Text::code_line))]
fn push_code(line: &mut LineBuf, page: u8, rest: &str)
    requires { length line.old + length rest.now ≤ 900 }
    ensures text { line.new ≡ line.old ++ code_line page rest.now }
    ensures len { length line.new ≤ length line.old + length rest.now + 9 }
    ensures more { length line.old < length line.new }
{
    line.push_word("code ");
    push_short(line, page);
    line.push_word(rest);
    line.push_word("\n");
}

/// Appends the instructions by which a client calls.
#[tactic(auto, unfolding(crate::specs::Text::call_text))]
fn push_call(line: &mut LineBuf, page: u8)
    requires { length line.old ≤ 0 }
    ensures text { line.new ≡ line.old ++ call_text page }
    ensures len { length line.new ≤ length line.old + 110 }
    ensures more { length line.old < length line.new }
{
    push_code(line, page, " 000 lui x10 0x10");
    push_code(line, page, " 004 addi x10 x10 0x61");
    push_code(line, page, " 008 addi x11 x5 0");
    push_code(line, page, " 00c ecall");
}

/// Appends the other instructions of a client.
#[tactic(auto, unfolding(crate::specs::Text::counting_text))]
fn push_counting(line: &mut LineBuf, page: u8)
    requires { length line.old ≤ 110 }
    ensures text { line.new ≡ line.old ++ counting_text page }
    ensures len { length line.new ≤ length line.old + 130 }
    ensures more { length line.old < length line.new }
{
    push_code(line, page, " 010 add x6 x6 x11");
    push_code(line, page, " 014 addi x5 x5 -1");
    push_code(line, page, " 018 bne x5 x0 -24");
    push_code(line, page, " 01c addi x10 x0 64");
    push_code(line, page, " 020 ecall");
}

/// Appends the instructions by which a server receives a first number.
#[tactic(auto, unfolding(crate::specs::Text::receiving_text))]
fn push_receiving(line: &mut LineBuf, page: u8)
    requires { length line.old ≤ 240 }
    ensures text { line.new ≡ line.old ++ receiving_text page }
    ensures len { length line.new ≤ length line.old + 80 }
    ensures more { length line.old < length line.new }
{
    push_code(line, page, " 000 lui x10 0x80");
    push_code(line, page, " 004 addi x10 x10 0x40");
    push_code(line, page, " 008 ecall");
}

/// Appends the other instructions of a server.
#[tactic(auto, unfolding(crate::specs::Text::answering_text))]
fn push_answering(line: &mut LineBuf, page: u8)
    requires { length line.old ≤ 320 }
    ensures text { line.new ≡ line.old ++ answering_text page }
    ensures len { length line.new ≤ length line.old + 140 }
    ensures more { length line.old < length line.new }
{
    push_code(line, page, " 00c add x11 x11 x11");
    push_code(line, page, " 010 addi x9 x9 1");
    push_code(line, page, " 014 lui x10 0x80");
    push_code(line, page, " 018 addi x10 x10 0x65");
    push_code(line, page, " 01c jal x0 -20");
}

/// Appends a line with a number at two places.
#[tactic(auto, unfolding(crate::specs::Text::double_line))]
fn push_double(line: &mut LineBuf, front: &str, first: u8, middle: &str, second: u8, rest: &str)
    requires { length line.old + length front.now + length middle.now + length rest.now ≤ 980 }
    ensures text { line.new ≡ line.old ++ double_line front.now first middle.now second rest.now }
    ensures len { let words = length front.now + length middle.now + length rest.now in
        length line.new ≤ length line.old + words + 7 }
    ensures more { length line.old < length line.new }
{
    line.push_word(front);
    push_short(line, first);
    line.push_word(middle);
    push_short(line, second);
    line.push_word(rest);
    line.push_word("\n");
}

/// Appends the slots, endpoints and processes of a pair.
#[tactic(auto, unfolding(crate::specs::Text::places_text))]
fn push_places(line: &mut LineBuf, client: u8, server: u8)
    requires { length line.old ≤ 460 }
    ensures text { line.new ≡ line.old ++ places_text client server }
    ensures len { length line.new ≤ length line.old + 250 }
    ensures more { length line.old < length line.new }
{
    push_double(line, "slot ", client, " 0 page:", client, "@12/0");
    push_double(line, "slot ", server, " 0 page:", server, "@12/0");
    push_double(
        line,
        "endpoint ",
        client,
        " process:",
        server,
        " 00000000 00000000 plain",
    );
    push_double(
        line,
        "endpoint ",
        server,
        " process:",
        client,
        " 00000000 00000000 plain",
    );
    push_double(
        line,
        "process ",
        client,
        " 0 gpt:",
        client,
        "@16/0 schedule:3 null run",
    );
    push_double(
        line,
        "process ",
        server,
        " 0 gpt:",
        server,
        "@16/0 schedule:3 null run",
    );
}

/// Appends a register of a process.
#[tactic(auto, unfolding(crate::specs::Text::register_line))]
fn push_register(line: &mut LineBuf, process: u8, rest: &str)
    requires { length line.old + length rest.now ≤ 980 }
    ensures text { line.new ≡ line.old ++ register_line process rest.now }
    ensures len { length line.new ≤ length line.old + length rest.now + 8 }
    ensures more { length line.old < length line.new }
{
    line.push_word("reg ");
    push_short(line, process);
    line.push_word(rest);
    line.push_word("\n");
}

/// Appends the register in which a client counts its calls.
#[tactic(auto, unfolding(crate::specs::Text::register_line))]
fn push_calls(line: &mut LineBuf, process: u8, calls: u32)
    requires { length line.old ≤ 760 }
    ensures text { line.new ≡ line.old ++ register_line process (codes " 5 " ++ hex_text 8 calls) }
    ensures len { length line.new ≤ length line.old + 20 }
    ensures more { length line.old < length line.new }
{
    line.push_word("reg ");
    push_short(line, process);
    line.push_word(" 5 ");
    line.push_eight(calls);
    line.push_word("\n");
}

/// Appends the registers of a pair.
#[tactic(auto, unfolding(crate::specs::Text::registers_text))]
fn push_registers(line: &mut LineBuf, calls: u32, client: u8, server: u8)
    requires { length line.old ≤ 710 }
    ensures text { line.new ≡ line.old ++ registers_text calls client server }
    ensures more { length line.old < length line.new }
{
    push_calls(line, client, calls);
    push_register(line, client, " 18 00000002");
    push_double(line, "capreg ", client, " 1 entry:", client, ":00000000");
    push_double(line, "capreg ", client, " 2 entry:", server, ":00000000");
    push_register(line, server, " 19 00000005");
}
