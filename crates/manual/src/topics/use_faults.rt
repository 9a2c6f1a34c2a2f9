//! Faults of the program itself.

use crate::topic::Topic;

/// What the faults mean that a command has however its files are.
pub const USE_FAULTS: [Topic; 15] = [
    Topic {
        name: "bad arguments",
        text: "\
bad arguments: the words are no command, or HEX of run is no hex, or a word of ask no number of its range. Hex is digits in pairs; blanks and line feeds may part them. help prints the commands, and help NAME the words of one. Behind start the word is named that is wrong: an address without a port, or an option that is not known, wants a value or another option, has a bad one or is given twice.

  oauthd run 9 00          (one digit is no byte)
",
    },
    Topic {
        name: "bad record",
        text: "\
bad record: the record is no hex, or not of 64 bytes with version 1 or of 96 bytes with version 2, or a field has a value that its version lacks. docs/ASSEMBLY.md has the table of the fields.

  oauthd run 9500000000000000 00
",
    },
    Topic {
        name: "cannot read",
        text: "\
cannot read FILE: the file is not there or may not be read, or the text of a hook is not UTF-8. Look at the path and at the file's permissions.

  oauthd asm no-such-file
",
    },
    Topic {
        name: "ELF file",
        text: "\
ELF file: FILE: what a compiler wrote, where the hex of a hook's code is wanted. examples/c/build makes hex of C; docs/HOOKS.md has the way by hand.

  oauthd check --why hook.o      oauthd check --why hook.hex
",
    },
    Topic {
        name: "not hex",
        text: "\
not hex: FILE: the file is there, and is not the hex of a hook's code: digits in pairs, which blanks and line feeds may part. asm makes hex of the text of a hook, and od -An -v -tx1 of its bytes.

  oauthd check --why hook.asm      oauthd asm hook.asm > hook.hex
",
    },
    Topic {
        name: "cannot write",
        text: "\
cannot write: standard output is closed or full. What was printed may be a part of the answer.

  oauthd list hook.hex > /dev/full
",
    },
    Topic {
        name: "bad line",
        text: "\
bad line: the line of a transcript is no event. The first line is config, a space and a registry; the others are open C, bytes C MOMENT DRAWS HEX, and end C, with one space between words, numbers without leading 0, and DRAWS a minus or 128 hex digits for each request, with commas between. No line is empty.

  open 01                  open 1
  bytes 1 1000 474554      bytes 1 1000 - 474554
",
    },
    Topic {
        name: "hook",
        text: "\
hook NAME: FAULT: start was to install this hook, and it is refused; no connection was taken. BadName: a name is 1 to 32 of a-z, 0-9 and -. NameTaken: two hooks have it. Full: there are more than 8. Insn and Verify are the faults of check: oauthd help has each.

  oauthd start 127.0.0.1:8080 registry.json --hook listed=hook.hex
",
    },
    Topic {
        name: "State",
        text: "\
State FAULT: FILE: start was to keep its state in FILE, and can't; no connection was taken, and the file stays as it is. So it is told where state or registry --state can't read FILE, or state --new can't make it.
State FAULT in batch N: state or registry --state was to read the file, and its N-th batch is wrong; nothing was printed.

oauthd help has each:

  Missing, NotState, Version N      there is no file, or it is none of this oauthd's
  Damaged N                         what stands behind the first N batches is damaged
  Link, NotAFile, SecondLink, WritableByOthers    the file can't be a server's own
  InUse, Open: WHY, Device: WHY     another server has it, or the system refuses it
  ClockAhead N                      the clock is far ahead of the file
  Exists, Make: WHY                 no file can be made there
  NoRules, Spelling ..              the file is not what a server wrote
  Follows ..                        a change in the file can't have happened after those before it
  ScopeMoved NAME, ClientMoved NAME the registry has left out or moved what the file has
  OwnerMoved N                      owner N of the file stands elsewhere in the registry, or nowhere, or is another one now
  HookDiffers NAME                  the file has another hook of that name; remove it by a request, or leave out the option
  Hook NAME FAULT                   a hook behind start is refused: oauthd help hook
  Full, TooLong                     the file, or what is to be written to it, is too long

  oauthd start 127.0.0.1:8080 registry.json --state /var/lib/oauthd/state
",
    },
    Topic {
        name: "audit",
        text: "\
audit FAULT: FILE: start was to tell of each request in FILE, and can't; no connection was taken. Missing: its folder is not there. Link, NotAFile, SecondLink, WritableByOthers: it has to be one file that no other may write; - is standard output. InUse: another file was put there just now. Open: the system refuses it.

  oauthd start 127.0.0.1:8080 registry.json --audit /var/lib/oauthd/audit
",
    },
    Topic {
        name: "cannot listen",
        text: "\
cannot listen on ADDR: WHY: no socket can be had at the address, for the system's reason WHY. address in use: another program listens there. permission denied: its port is below 1024, and reserved. address not available: its host is not of this machine. An address is an IP address or a host's name, a colon and a port. serve says no more than cannot listen.

  oauthd start 8080 registry.json      oauthd start 127.0.0.1:8080 registry.json
",
    },
    Topic {
        name: "no random bytes",
        text: "\
no random bytes: the system's source of random bytes fails. No connection was served, for codes and tokens could be guessed.
",
    },
    Topic {
        name: "connection ended",
        text: "\
connection ended: FAULT: a connection of start was closed before its client ended it, or one could not be taken. Read and Write are failures of its socket: mostly the client is gone. Accept is one that was not taken, mostly for want of descriptors (ulimit -n); it is tried again. Refused is an event that the server did not take, and is told with its name. The server goes on with the others.
",
    },
    Topic {
        name: "stopped",
        text: "\
stopped: FAULT: start served, and can't go on. Wait is a wait for connections that fails, Clock is a clock of the machine that can't be read, ClockAhead N is one that jumped ahead by N seconds, more than a year (set it first; oauthd help ClockAhead), Rounds are more rounds than can be counted, and State: WHY is a state that can't be written to its file, for the system's reason WHY (Displaced: the file or its lock was moved or removed): make room on the disk, or look what is wrong with it. All connections were closed; what was acknowledged is in the file. Start it again.
",
    },
    Topic {
        name: "out of memory",
        text: "\
out of memory: the system gave no memory. Nothing was printed; the same command may be tried again.
",
    },
];
