//! Lists of words and what they ask for, worked out by hand from the forms.
use crate::rows::check_text;
use coyotos_words::read_command;
use std::alloc::Global;
use std::process::Abort;

/// The words of a line, each of which stands behind a bar.
fn words_of(rt: &impl Abort, alloc: Global, line: &str) -> Vec<String> {
    let mut words = Vec::new(alloc);
    for part in line.split('|').skip(1) {
        let word = part.to_string(alloc).expect(rt, line);
        words.push(word).expect(rt, line);
    }
    words
}

/// Words, each behind a bar, and behind a colon what they ask for, with its numbers in decimal. With no colon they are
/// of no form: the second such line has no word.
const FORMS: &str = "\
|check: Some(Check)
|run: Some(Schedule(Run))
|trace: Some(Schedule(Trace))
|tables: Some(Schedule(Tables))
|--help: Some(Help)
|walk|0|fetch|0: Some(Schedule(Walk { process: 0, kind: Fetch, address: 0 }))
|walk|0|load|1000: Some(Schedule(Walk { process: 0, kind: Load, address: 4096 }))
|walk|000|store|FFFFFFFf: Some(Schedule(Walk { process: 0, kind: Store, address: 4294967295 }))
|walk|0|capload|0: Some(Schedule(Walk { process: 0, kind: CapLoad, address: 0 }))
|walk|0|capstore|0: Some(Schedule(Walk { process: 0, kind: CapStore, address: 0 }))
|make|7: Some(Make { number: 7, summary: false })
|make|4294967295: Some(Make { number: 4294967295, summary: false })
|make|0007|summary: Some(Make { number: 7, summary: true })
|pack: Some(Pack)
|unpack: Some(Unpack)
|migrate: Some(Migrate)
|confine: Some(Confine)
|share: Some(Share)
|back|3: Some(Back { number: 3 })
|back|0: Some(Back { number: 0 })
|back|0000000007: Some(Back { number: 7 })
|back|4294967295: Some(Back { number: 4294967295 })
|

|help
|help|run
|-h
|--help|run
|run|--help
|--version
|--
|run|--
|--|run
|tr
|Run
|run\x20
|run|run
|packs
|pack|0
|unpack|
|migrate|2
|confine|--
|walk
|walk|0
|walk|0|load
|walk|0|load|0|0
|walk|256|load|0
|walk|x|load|0
|walk|0|loads|0
|walk|0|load|g
|walk|0|load|100000000
|walk|load|0|0
|walk|--|0|load|0
|make
|make|4294967296
|make|-7
|make|+7
|make|--|7
|make|7|verbose
|make|7|summaryx
|make|summary
|make|7|summary|7
|make|7|
|share|--
|share|1
|back
|back|
|back|x
|back|-1
|back|+1
|back|--|1
|back|4294967296
|back|00000000001
|back|1|1
|backs|1";

/// The row's words ask for what stands behind them.
fn check_asked(rt: &impl Abort, alloc: Global, row: &str) {
    let (line, wanted) = row.split_once(": ").unwrap_or((row, "None"));
    let words = words_of(rt, alloc, line);
    let asked = read_command(alloc, words.as_slice()).expect(rt, row);
    let told = format!(in alloc; "{asked:?}").expect(rt, row);
    check_text(rt, told.as_bytes(), wanted, row);
}

#[test]
fn words_ask_for_what_their_form_says(rt: HostRuntime) {
    for row in FORMS.lines() {
        check_asked(&rt, rt.alloc(), row);
    }
}
