//! Gogbetiku: shortest routes over road maps that prove themselves.
//!
//! `guarded_run` does everything that the program does, over the real files and streams that `shipped` makes: it looks at
//! the owner's desk before a command that uses its keys, and then calls `run` (`road_run`). `main` reads the arguments.
//! It writes a sentence to standard error for each reason and each news that `guarded_run` gives.
#![tactic(auto)]

mod long_work;
mod mirror_files;
mod owner_words;
mod serve_hint;

use command_files::Ended;
use desk_disk::DeskDisk;
use desk_guard::{Answer, Clash, Unbegun, desk_clash, output_clash};
use guarded_run::{
    Guarded, News, Reason, folder_fault, guarded_run, left_after, news_of, reason_of,
    room_for_lost, shipped, sight_on,
};
use long_work::tell_long_work;
use mirror_files::{labels_of, tell_lost, tell_unsynced, told_mirrors};
use octet_text::NoMemory;
use outside::NotedNames;
use owner_words::{
    tell_folder, tell_key_again, tell_key_file, tell_opening, tell_places, tell_secret,
    tell_signing, tell_spending, tell_versions,
};
use road_command::{Command, MOST_WORDS, Words, command_of};
use road_io::{FileLibrary, KeptLibrary, KeptSink, StdSink, StdSource};
use road_tell::{
    Asked, Content, Facts, ShortName, asked_of, key_of, message_on, most_kept, subject_of,
};
use serve_hint::tell_of_serve;
use std::alloc::Global;
use std::env;
use std::io::IsTerminal;
use std::process::ExitCode;
use std::time::Instant;

/// Returns the arguments after the program's name, or why a run cannot have them.
fn words_of(rt: HostRuntime, alloc: Global) -> Result<Words, Unbegun> {
    let mut words = Words::new(alloc);
    let arguments = match env::args(&rt) {
        Ok(arguments) => arguments,
        Err(e) => return Err(Unbegun::of(e.kind())),
    };
    for word in arguments.skip(1) {
        if words.count() > MOST_WORDS {
            return Err(Unbegun::NotGiven);
        }
        words.push(word.as_str()).map_err(Unbegun::Memory)?;
    }
    Ok(words)
}

/// Reports why a run could not begin, and returns its status.
fn not_begun(rt: HostRuntime, why: Unbegun) -> ExitCode {
    let _ = match why {
        Unbegun::Memory(_) | Unbegun::NotGiven => eprintln!(rt;
            "road_proof: memory: Out of memory."
        ),
        Unbegun::NotText => eprintln!(rt; "road_proof: arguments: One of them is not valid UTF-8."),
    };
    ExitCode::from(why.status())
}

/// Reports why a standard stream cannot take what the command writes, and returns the status. Reports nothing to a
/// standard error that is the desk.
fn tell_clash(rt: HostRuntime, clash: Clash<'_>) -> ExitCode {
    match clash {
        Clash::ErrorIsDesk => {}
        Clash::OutputIsDesk => tell_overwritten(rt, "owner.desk"),
        Clash::OutputIsInput(name) => tell_overwritten(rt, name),
        Clash::OutputIsTerminal => {
            let _ = eprintln!(rt;
                "road_proof: standard output: It is a terminal, and this command writes binary output. Send it to a file. Nothing was done."
            );
        }
    }
    ExitCode::from(clash.status())
}

/// Reports that standard output is a file that the command uses.
fn tell_overwritten(rt: HostRuntime, name: &str) {
    let _ = eprintln!(rt;
        "road_proof: {name}: Standard output would overwrite this file. Send it elsewhere. Nothing was done."
    );
}

/// Prints the answer to a question about the program itself on standard output, and returns the status.
fn tell(rt: HostRuntime, asked: Asked) -> ExitCode {
    let answer = Answer::of(println!(rt; "{asked}"));
    if let Answer::Cut(e) = answer {
        let _ = eprintln!(rt; "road_proof: standard output: It was not written whole: {e}.");
    }
    ExitCode::from(answer.status())
}

/// Reports why a run ended as it did, if there is anything to say.
fn tell_end(rt: HostRuntime, words: &Words, ended: Ended, facts: Facts<'_>) {
    if let Some(message) = message_on(words, ended, facts) {
        let _ = eprintln!(rt; "{message}");
    }
}

/// The results of a run.
type Done = Guarded<
    KeptLibrary<FileLibrary<HostRuntime>>,
    StdSource<HostRuntime>,
    KeptSink<StdSink<HostRuntime>>,
    DeskDisk<HostRuntime>,
    FileLibrary<HostRuntime>,
    NotedNames<HostRuntime>,
>;

/// Returns the front of a file that was loaded, or nothing for another.
fn front_of<'a>(done: &'a Done, name: &str) -> &'a [u8] {
    match done.library.kept(name) {
        Some(kept) => kept.front(),
        None => &[],
    }
}

/// Returns what is known of a run with this end.
fn facts_of<'a>(words: &'a Words, ended: Ended, done: &'a Done) -> Facts<'a> {
    let library = &done.library;
    let name = library.inner().last_name().unwrap_or("file");
    let file = match library.kept(subject_of(words, ended, name)) {
        Some(kept) => Content::of(words, ended, name, kept.front(), kept.length()),
        None => Content::Unknown,
    };
    Facts {
        name,
        file,
        file_error: library.inner().last_error(),
        source_error: done.source.last_error(),
        sink_error: done.sink.inner().inner().last_error(),
        desk_error: done.disk.last_error(),
        line: done.sink.inner().front(),
        key: ShortName::of_digits(front_of(done, key_of(command_of(words)))),
        left: left_after(words, done.sight),
    }
}

/// Returns what is known where the look at the desk failed.
fn facts_of_look(done: &Done) -> Facts<'_> {
    Facts {
        name: "owner.desk",
        file: Content::Unknown,
        file_error: None,
        source_error: None,
        sink_error: None,
        desk_error: done.disk.last_error(),
        line: b"",
        key: None,
        left: None,
    }
}

/// Reports why a run ended as it did.
fn tell_reason(rt: HostRuntime, words: &Words, reason: Reason, done: &Done) {
    let _ = match reason {
        Reason::Unsafe(why) => eprintln!(rt; "road_proof: owner.desk: {why}"),
        Reason::Strange(strange) => eprintln!(rt; "road_proof: owner.desk: {strange}"),
        Reason::OtherKey => eprintln!(rt;
            "road_proof: owner.desk: Its first key is not that of the file owner.key. One of the two was changed, or belongs to another owner. Nothing was signed. Compare owner.key with another copy of your public key. If it is right, sign nothing more with this desk, and make a new key in another folder."
        ),
        Reason::Unsigned => eprintln!(rt;
            "road_proof: owner.desk: The map is not signed by the key of the file owner.key, or by the one that the last link after it names. No client would accept it. Nothing was written. Something has changed the desk: sign nothing more with it."
        ),
        Reason::Failed(fault) => {
            return tell_end(rt, words, Ended::of(Err(fault)), facts_of_look(done));
        }
        Reason::Ended(ended) => return tell_end(rt, words, ended, facts_of(words, ended, done)),
    };
}

/// Reports what was signed.
fn tell_signed(rt: HostRuntime, words: &Words, news: News, done: &Done) {
    if let (News::Signed(sight), Some(Command::Publish { roads, .. })) = (news, command_of(words)) {
        tell_signing(
            rt,
            roads,
            sight,
            done.sink.inner().front(),
            front_of(done, roads),
        );
    }
}

/// Reports the other news of a run that began then.
fn tell_news(
    rt: HostRuntime,
    alloc: Global,
    words: &Words,
    news: News,
    done: &mut Done,
    begun: Option<Instant>,
) {
    match (news, command_of(words)) {
        (News::Made, Some(Command::Key { secret, .. } | Command::Succeed { secret, .. })) =>
            tell_secret(rt, secret, front_of(done, secret)),
        (News::Stands, _) => tell_key_again(rt, sight_on(alloc, &mut done.disk)),
        (News::Shown, _) => tell_versions(rt, sight_on(alloc, &mut done.disk)),
        (News::Answered, Some(Command::Prove { publication, .. })) => tell_of_serve(
            rt,
            publication,
            begun,
        ),
        _ => {}
    }
}

/// Does what the arguments ask for over the real files and streams, and reports how it ended.
fn run_words(
    rt: HostRuntime,
    alloc: Global,
    words: &Words,
    begun: Option<Instant>,
) -> Result<ExitCode, NoMemory> {
    if let Some(clash) = output_clash(&rt, words, rt.stdout().is_terminal()) {
        return Ok(tell_clash(rt, clash));
    }
    tell_places(rt, words);
    tell_long_work(rt, words);
    let mirrors = told_mirrors(rt, alloc, words)?;
    let labels = labels_of(alloc, &mirrors)?;
    let gone = room_for_lost(alloc, &mirrors)?;
    let objects = shipped(rt, alloc, words, most_kept(words));
    let mut done = guarded_run(rt, alloc, words, objects, mirrors, gone);
    tell_key_file(rt, done.known);
    tell_opening(rt, &done.disk);
    tell_spending(rt, done.spending);
    tell_lost(rt, &labels, &done.mirrors);
    tell_unsynced(rt, &done.unsynced);
    let news = news_of(words, done.sight, done.end);
    tell_signed(rt, words, news, &done);
    let reason = reason_of(done.end, done.disk.why_unsafe());
    tell_reason(rt, words, reason, &done);
    tell_folder(rt, folder_fault(&rt, reason));
    tell_news(rt, alloc, words, news, &mut done, begun);
    Ok(ExitCode::from(done.status()))
}

fn main(rt: HostRuntime) -> ExitCode {
    let alloc = rt.alloc();
    let begun = Instant::now(&rt).ok();
    if let Some(clash) = desk_clash(&rt) {
        return tell_clash(rt, clash);
    }
    let words = match words_of(rt, alloc) {
        Ok(words) => words,
        Err(why) => return not_begun(rt, why),
    };
    if let Some(asked) = asked_of(&words) {
        return tell(rt, asked);
    }
    match run_words(rt, alloc, &words, begun) {
        Ok(code) => code,
        Err(none) => not_begun(rt, Unbegun::Memory(none)),
    }
}
