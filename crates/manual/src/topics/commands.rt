//! The commands.

use crate::topic::Topic;

/// What each command does.
pub const COMMANDS: [Topic; 13] = [
    Topic {
        name: "run",
        text: "\
run HEX RECORDHEX: runs the hook whose code is HEX on the record RECORDHEX, and prints R0, the steps, and what is left of the grant: allowed SCOPES SECONDS, denied, or empty scope. The hook is checked first. ask makes a record of a few numbers, and docs/ASSEMBLY.md one field by field. run --trace prints each step before that: the slot, the instruction, and what it wrote into its register, a number or an address (record, 8 is byte 8 of the record, stack, -8 is 8 bytes before the stack's end).

  oauthd run b7000000010000009500000000000000 0100000001000000e80300000000000001000000000000000100000000000000030000000000000003000000000000002c010000000000000300000000000000
",
    },
    Topic {
        name: "ask",
        text: "\
ask KIND MOMENT CLIENT OWNER SCOPE LIFE: prints, as hex, the record of version 1 of an ask, for run. KIND is 1 where a code is redeemed, 2 where a token is refreshed, 3 for client credentials; MOMENT is in Unix seconds; CLIENT is a client's place in the registry, from 1; OWNER is an owner's number (his place, from 1, where the registry states none), or 0 for client credentials; SCOPE has bit i for the i-th name of the registry's scopes; LIFE is in seconds. The client is allowed just these scopes. All are decimal numbers.

  oauthd run $(cat hook.hex) $(oauthd ask 1 1000 7 1 3 300)
",
    },
    Topic {
        name: "ask2",
        text: "\
ask2 KIND MOMENT CLIENT OWNER SCOPE LIFE: as ask, the record of version 2. The owner has consented to just these scopes, and the configured lifetimes of access and refresh tokens are both LIFE.

  oauthd run $(cat hook.hex) $(oauthd ask2 2 1000 1 1 3 300)
",
    },
    Topic {
        name: "asm",
        text: "\
asm FILE: turns the text of a hook into the hex of its code. docs/ASSEMBLY.md is the language.

  oauthd asm hook.asm > hook.hex
",
    },
    Topic {
        name: "list",
        text: "\
list FILE: turns the hex of a hook's code into text: an instruction a line. list --slots puts the slot of each instruction before it, by which faults are told.

  oauthd list hook.hex
  oauthd list --slots hook.hex
",
    },
    Topic {
        name: "check",
        text: "\
check FILE: says whether a server takes the hook whose hex stands in FILE, for records of version 1, and how many instructions it has. check --why prints, of a hook that is not taken, the fault, the instruction behind its slot, what is known of the registers that it reads (unset, or between which numbers or offsets they lie) and of the bytes that it loads from the stack, a way that leads there, and how to mend it; of one that is taken, the slots of instructions that no way reaches.

  oauthd check hook.hex
  oauthd check --why hook.hex
",
    },
    Topic {
        name: "check2",
        text: "\
check2 FILE: as check, for records of version 2; so check2 --why.

  oauthd check2 hook.hex
",
    },
    Topic {
        name: "start",
        text: "\
start ADDR CONFIG [--state FILE | --etcd URL[,URL..] --prefix NAME [--etcd-user NAME --etcd-password-file FILE] [--lease SECONDS] [--standby-answers]] [--accept-clock] [--hook NAME=FILE].. [--hook2 NAME=FILE].. [--silence SECONDS] [--full SECONDS] [--report SECONDS] [--audit FILE]: listens at ADDR, which is an IP address or a host's name, a colon and a port, prints listening ADDR, and serves up to 64 connections at once, with the registry in the file CONFIG, until it is stopped. Port 0 lets the system choose one. The options come in any order. --state names the file in which the server keeps what happens to it: hooks, consents, codes and tokens, the tokens by their digests alone. It has to be there: state --new makes one. A server that is started on it again goes on from there; no reply is written before what it says is on the disk. A start that is refused leaves the file as it is. One that goes on tells first, on standard error, how many bytes of an unfinished write it found, which it puts into FILE.torn; how many codes and tokens ended that went beyond the registry; and by how much the state is ahead of the clock, where it is: nothing expires until the clock comes there. --etcd keeps that in etcd, in the place of a file: the URLs, which begin with http://, are those of the members of its cluster, and --prefix is what the keys of the list begin with. There a server leads, or waits until no other one does, and listens only then, or, with --standby-answers, answers 503 to all until then. --lease is after how many seconds another one may lead where nothing is heard of it: 2 at least, 3 where it is left out. --etcd-user asks as that user, whose password stands in the file of --etcd-password-file. --accept-clock, which takes no value, takes a clock that is more than a year ahead of the state (oauthd help ClockAhead). --hook installs the program in FILE, hex or bytes, as the hook NAME before the first connection is taken, --hook2 one that reads records of version 2; they answer in the order in which they stand, behind those that a state has kept; one that it has kept under the same name stays, and has to be the same. --silence is after how many seconds a connection is closed that took no byte of a reply, at least 1, or 60 where it is left out; --full is after how many one gives way where all 64 places are taken and another one waits: the one that was silent longest, or else the one that is there longest, right behind a reply; or 5. The two may also stand as numbers right behind CONFIG: SILENCE, or SILENCE and FULL. --report writes a line of JSON on standard error each so many seconds, at least 1, and one at the end: how many connections, requests, replies, codes and tokens there are, and nothing of what is in them; and it says there when no more codes and tokens may be given, at most once a minute. --audit writes a line of JSON at the end of FILE for each request that was answered, in their order: who asked, what came of it, in which family, and what each hook left, but no key, code or token; - is standard output; where FILE is not there it is made; its lines stand before their replies are written. Codes and tokens are drawn by random bytes of the system. A connection that a fault ended is told on standard error, in at most one line a second. Without --state all that the server knows is in memory alone, and is lost when it is stopped. docs/OPERATING.md and docs/MACHINES.md say more.

  oauthd start 127.0.0.1:8080 registry.json
  oauthd start 127.0.0.1:8080 registry.json --etcd http://127.0.0.1:2379 --prefix oauthd
  oauthd start 127.0.0.1:8080 registry.json --hook listed=hook.hex --silence 30
  oauthd start 127.0.0.1:8080 registry.json --state /var/lib/oauthd/state --audit /var/lib/oauthd/audit
  oauthd start 127.0.0.1:8080 registry.json 30 2
",
    },
    Topic {
        name: "serve",
        text: "\
serve ADDR CONFIG SEEDHEX COUNT: listens at ADDR, prints listening ADDR, serves COUNT connections, one after the other, with the registry in the file CONFIG, and ends. Codes and tokens are drawn by a generator whose seed is SEEDHEX, 64 hex digits: who knows the seed knows each of them, so it is for tests alone.

  oauthd serve 127.0.0.1:8080 registry.json 0707070707070707070707070707070707070707070707070707070707070707 1
",
    },
    Topic {
        name: "registry",
        text: "\
registry FILE: reads the registry in FILE as start does, and serves nothing. Where it is refused, the fault is told with where it stands: Config BadRedirect at clients[17].redirects[0] is the first redirect URI of the 18th client, since items are counted from 0. Else it prints the lives of tokens in seconds, how many owners and clients there are, how many unexpired codes and tokens (records) and how many consents are kept at most, what these then take in memory, in megabytes, the names of all scopes, and, behind warning:, what may be a mistake: a member whose name means nothing there, one that stands twice in its object, a key that is the SHA-256 of the empty text, an owner with the operator's key, an owner or the operator with the gateway's, access tokens that live longer than refresh tokens, and a file that everybody on the machine may read. registry FILE --state STATE prints instead how many codes and tokens of the state file STATE a start under that registry would end, since they go beyond it, or tells why that start would be refused. It writes nothing, and wants no lock. With --etcd URL[,URL..] --prefix NAME in the place of --state it says so of a list in etcd.

  oauthd registry registry.json
  oauthd registry registry.json --state /var/lib/oauthd/state
",
    },
    Topic {
        name: "state",
        text: "\
state FILE: prints what the file of a server's state stands for: a line of JSON for each consent, for each family of codes and tokens, for each code and token that is unexpired, and for each hook, and one for the file. Of a digest there are the first 8 hex digits, so no line has a secret. The last line has how many bytes and whole batches the file has, how many bytes of an unfinished write stand behind them (torn), the moment of the last change in Unix seconds (last), and how many seconds ago that was (age). The file is read alone: nothing is written and no lock is wanted, so a running server's file can be listed. No registry is wanted either: the file has the names. The age is below 0 where that moment is ahead of the clock. What is wrong with a batch is told with its number, counted from 1; oauthd help State has the names.
state --front FILE: prints the same of a file that is damaged (State Damaged N), up to the damage: what its first N batches stand for.
state --new FILE: makes an empty state file, which its owner alone may read and write. It refuses a path where something is.
state --etcd URL[,URL..] --prefix NAME [--etcd-user NAME --etcd-password-file FILE]: prints the same of a list in etcd, as it is at one moment. state --new --etcd .. makes an empty list, state --from FILE --etcd .. one of what stands in a state file, and state --to FILE --etcd .. a file of what stands in a list. They refuse where something is, and a list is made only where no server leads.

  oauthd state /var/lib/oauthd/state
  oauthd state --front damaged-state
  oauthd state --new /var/lib/oauthd/state
  oauthd state --from /var/lib/oauthd/state --etcd http://127.0.0.1:2379 --prefix oauthd
",
    },
    Topic {
        name: "replay",
        text: "\
replay FILE: reads the transcript in FILE, gives each of its events to a server, and prints for each connection how many bytes the server sent to it, and the bytes. The first line is config and a registry; each line behind it is an event: open C, bytes C MOMENT DRAWS HEX, or end C. docs/OPERATING.md has the form.

  oauthd replay transcript.txt
",
    },
    Topic {
        name: "help",
        text: "\
help prints the commands; help NAME says of a command or of a fault what it means.

  oauthd help UnsetRegister
",
    },
];
