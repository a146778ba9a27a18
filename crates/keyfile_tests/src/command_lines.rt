use std::alloc::{AllocError, Global};
use std::test::Fail;
use vault_words::{
    Job, Making, Recovering, Serving, Topic, VERSION, Verbosity, Way, WordsErr, complaint,
    help_text, read_words, vaultd,
};

// Words with a space between each two.
fn words(alloc: Global, line: &str) -> Result<Vec<String>, AllocError> {
    let mut words = Vec::new(alloc);
    for word in line.split(' ') {
        let word = String::from_str(alloc, word)?;
        words.push(word)?;
    }
    Ok(words)
}

const PLAIN: Serving<'static> = Serving {
    dir: "v",
    address: "-",
    sessions: None,
    at_once: 8,
    raw_key: false,
    read_only: false,
    passfile: None,
    idle: 0,
    verbosity: Verbosity::Usual,
};

const FIRST: Serving<'static> = Serving {
    sessions: Some(1),
    at_once: 1,
    raw_key: true,
    ..PLAIN
};

const WHOLE: Serving<'static> = Serving {
    dir: "-v",
    address: "127.0.0.1:564",
    sessions: Some(1_000_000),
    at_once: 64,
    raw_key: true,
    read_only: true,
    passfile: Some("-"),
    idle: 1_000_000,
    verbosity: Verbosity::VeryVerbose,
};

#[test]
fn each_serving_has_its_words(rt: HostRuntime) -> Result<(), Fail> {
    for (line, serving) in [
        (
            "serve v --listen - --sessions 1 --at-once 1 --raw-key",
            FIRST,
        ),
        (
            "serve --raw-key --at-once=1 --sessions=1 --listen=- v",
            FIRST,
        ),
        ("serve v --listen -", PLAIN),
        ("serve --listen - --at-once 8 --idle 0 -- v", PLAIN),
        (
            "serve --sessions 1000000 --listen 127.0.0.1:564 --at-once 64 --raw-key --read-only --passfile - --idle 1000000 -vv -- -v",
            WHOLE,
        ),
        (
            "serve v --listen - -q",
            Serving {
                verbosity: Verbosity::Quiet,
                ..PLAIN
            },
        ),
        (
            "serve v --listen - --quiet --read-only",
            Serving {
                verbosity: Verbosity::Quiet,
                read_only: true,
                ..PLAIN
            },
        ),
        (
            "serve -v v --listen -",
            Serving {
                verbosity: Verbosity::Verbose,
                ..PLAIN
            },
        ),
        (
            "serve v --verbose --listen - -vv",
            Serving {
                verbosity: Verbosity::VeryVerbose,
                ..PLAIN
            },
        ),
        (
            "serve v --listen - --passfile=a=b",
            Serving {
                passfile: Some("a=b"),
                ..PLAIN
            },
        ),
    ] {
        let words = words(rt.alloc(), line)?;
        assert_eq!(rt;
            read_words(rt.alloc(), &words),
            Ok(Job::Serve(serving)),
            "{line}"
        );
        assert!(rt; complaint(rt.alloc(), &words)?.is_none(), "{line}");
    }
    Ok(())
}

#[test]
fn each_job_has_its_words(rt: HostRuntime) -> Result<(), Fail> {
    for (line, job) in [
        (
            "make v",
            Job::Make(Making {
                dir: "v",
                passfile: None,
            }),
        ),
        (
            "make --passfile f -- --listen",
            Job::Make(Making {
                dir: "--listen",
                passfile: Some("f"),
            }),
        ),
        (
            "demo --seed 18446744073709551615 --clients 64 --requests 100000",
            Job::Demo {
                seed: 18446744073709551615,
                clients: 64,
                requests: 100_000,
            },
        ),
        (
            "demo --requests 0 --clients 1 --seed 0",
            Job::Demo {
                seed: 0,
                clients: 1,
                requests: 0,
            },
        ),
        ("sync unix:a", Job::Sync { address: "unix:a" }),
        (
            "recover v",
            Job::Recover(Recovering {
                dir: "v",
                way: Way::Show,
            }),
        ),
        (
            "recover --skip v",
            Job::Recover(Recovering {
                dir: "v",
                way: Way::Skip,
            }),
        ),
        (
            "recover v --discard",
            Job::Recover(Recovering {
                dir: "v",
                way: Way::Discard,
            }),
        ),
        ("help", Job::Help(Topic::Program)),
        ("help serve", Job::Help(Topic::Serve)),
        ("help make", Job::Help(Topic::Make)),
        ("help demo", Job::Help(Topic::Demo)),
        ("help sync", Job::Help(Topic::Sync)),
        ("help recover", Job::Help(Topic::Recover)),
        ("serve v -h", Job::Help(Topic::Serve)),
        ("--help serve", Job::Help(Topic::Program)),
        ("-V", Job::Version),
    ] {
        let words = words(rt.alloc(), line)?;
        assert_eq!(rt; read_words(rt.alloc(), &words), Ok(job), "{line}");
        assert!(rt; complaint(rt.alloc(), &words)?.is_none(), "{line}");
    }
    Ok(())
}

// What clap itself answers these words with.
fn answer(alloc: Global, words: &[String]) -> Result<Option<String>, AllocError> {
    match vaultd(alloc)?.try_get_matches_from(words) {
        Ok(_) => Ok(None),
        Err(error) => Ok(Some(format!(in alloc; "{error}")?)),
    }
}

#[test]
fn texts_are_claps(rt: HostRuntime) -> Result<(), Fail> {
    for (line, topic) in [
        ("--help", Topic::Program),
        ("-h", Topic::Program),
        ("serve --help", Topic::Serve),
        ("make --help", Topic::Make),
        ("demo --help", Topic::Demo),
        ("sync --help", Topic::Sync),
        ("recover --help", Topic::Recover),
    ] {
        let words = words(rt.alloc(), line)?;
        let answer = answer(rt.alloc(), &words)?;
        assert_eq!(rt; answer.as_deref(), Some(help_text(topic)), "{line}");
        assert_eq!(rt;
            read_words(rt.alloc(), &words),
            Ok(Job::Help(topic)),
            "{line}"
        );
    }
    let words = words(rt.alloc(), "--version")?;
    let answer = answer(rt.alloc(), &words)?;
    assert_eq!(rt; answer.as_deref(), Some(VERSION));
    assert_eq!(rt; read_words(rt.alloc(), &words), Ok(Job::Version));
    Ok(())
}

#[test]
fn complaints_name_the_word(rt: HostRuntime) -> Result<(), Fail> {
    for (line, wanted) in [
        (
            "serv v",
            "error: unrecognized subcommand 'serv'\n\n  tip: a similar subcommand exists: 'serve'\n\nUsage: vaultd <COMMAND>\n",
        ),
        (
            "serve v --listn -",
            "error: unexpected argument '--listn' found\n\n  tip: a similar argument exists: '--listen'\n\nUsage: vaultd serve --listen <ADDR> <DIR>\n",
        ),
        (
            "serve v",
            "error: the following required arguments were not provided:\n  --listen <ADDR>\n\nUsage: vaultd serve --listen <ADDR> <DIR>\n",
        ),
        (
            "serve v --listen - --at-once 65",
            "error: invalid value '65' for '--at-once <M>': 1 to 64\n",
        ),
        (
            "serve v --listen - --sessions 01 --idle -",
            "error: invalid value '01' for '--sessions <N>': 1 to 1000000\n",
        ),
        (
            "serve v --listen - --idle=1000001 -qv",
            "error: invalid value '1000001' for '--idle <SECONDS>': 0 to 1000000\n",
        ),
        (
            "recover v --discard --skip",
            "error: the argument '--skip' cannot be used with '--discard'\n",
        ),
        (
            "demo --seed 0 --clients 0 --requests 0",
            "error: invalid value '0' for '--clients <M>': 1 to 64\n",
        ),
        (
            "serve v --listen - -qv",
            "error: the argument '--quiet' cannot be used with '--verbose...'\n",
        ),
        (
            "help serv",
            "error: unrecognized subcommand 'serv'\n\nUsage: vaultd help [COMMAND]\n",
        ),
    ] {
        let words = words(rt.alloc(), line)?;
        let told = complaint(rt.alloc(), &words)?;
        let wanted = format!(in rt.alloc(); "{wanted}\nFor more information, try '--help'.\n")?;
        assert_eq!(rt; told.as_deref(), Some(wanted.as_str()), "{line}");
    }
    Ok(())
}

#[test]
fn other_words_are_refused(rt: HostRuntime) -> Result<(), Fail> {
    for line in [
        "",
        "serve",
        "serve v",
        "copy v",
        "serve v --sessions 1",
        "serve v --sessions 1 --listen",
        "serve --listen - --sessions 1",
        "serve v w --listen - --sessions 1",
        "serve v --listen - --sessions 0",
        "serve v --listen - --sessions 1000001",
        "serve v --listen - --sessions 01",
        "serve v --listen - --sessions +1",
        "serve v --listen - --sessions -1",
        "serve v --listen - --sessions one",
        "serve v --listen - --sessions=",
        "serve v --listen - --sessions",
        "serve v --listen - --sessions 1 --sessions 1",
        "serve v --listen - --sessions 1 --at-once 0",
        "serve v --listen - --sessions 1 --at-once 65",
        "serve v --listen - --sessions 1 --raw-key --raw-key",
        "serve v --listen - --sessions 1 --raw-key=1",
        "serve v --listen - --sessions 1 --raw",
        "serve v --listen - --idle 1000001",
        "serve v --listen - --idle -1",
        "serve v --listen - --idle",
        "serve v --listen - -q -v",
        "serve v --listen - -qvv",
        "serve v --listen - -qq",
        "serve v --listen - --passfile",
        "serve -v --listen - --sessions 1",
        "make",
        "make v w",
        "make v --raw-key",
        "demo --seed 0 --clients 0 --requests 0",
        "demo --seed 0 --clients 65 --requests 0",
        "demo --seed 0 --clients 1 --requests 100001",
        "demo --seed 18446744073709551616 --clients 1 --requests 0",
        "demo --seed 0 --clients 1",
        "demo v --seed 0 --clients 1 --requests 0",
        "sync",
        "sync a b",
        "sync --listen a",
        "recover",
        "recover v w",
        "recover v --skip --discard",
        "recover v --skip --skip",
        "recover v --raw-key",
        "help help",
        "help serv",
        "help serve make",
        "help --help",
    ] {
        let words = words(rt.alloc(), line)?;
        assert_eq!(rt;
            read_words(rt.alloc(), &words),
            Err(WordsErr::Refused),
            "{line}"
        );
        assert!(rt; complaint(rt.alloc(), &words)?.is_some(), "{line}");
    }
    Ok(())
}
