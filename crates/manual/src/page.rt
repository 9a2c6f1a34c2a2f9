//! The commands, and the version of the program.

/// The commands, each with an example.
pub const PAGE: &str = "\
oauthd: an OAuth 2.0 authorization server with verified token hooks.

oauthd run HEX RECORDHEX   runs the hook of some code on a record
    oauthd run b7000000010000009500000000000000 0100000001000000e80300000000000001000000000000000100000000000000030000000000000003000000000000002c010000000000000300000000000000
oauthd run --trace HEX RECORDHEX
                           the same, and each step of the run before it
    oauthd run --trace b7000000010000009500000000000000 0100000001000000e80300000000000001000000000000000100000000000000030000000000000003000000000000002c010000000000000300000000000000
oauthd ask KIND MOMENT CLIENT OWNER SCOPE LIFE
                           prints the hex of a record for run, in version 1; ask2 in version 2
    oauthd ask 1 1000 1 1 3 300
oauthd asm FILE            prints the hex of the code that the text of a hook says
    oauthd asm hook.asm
oauthd list FILE           prints the text of the hook whose hex stands in a file
    oauthd list hook.hex
oauthd list --slots FILE   the same, with the slot of each instruction before it
    oauthd list --slots hook.hex
oauthd check FILE          says whether that hook is taken, for records of version 1
    oauthd check hook.hex
oauthd check2 FILE         the same, for records of version 2
    oauthd check2 hook.hex
oauthd check --why FILE    says, too, why it is not taken, or what of it no way reaches; and so check2
    oauthd check --why hook.hex
oauthd start ADDR CONFIG   serves until it is stopped, at an address, with the registry of a file
    oauthd start 127.0.0.1:8080 registry.json --hook listed=hook.hex
oauthd serve ADDR CONFIG SEEDHEX COUNT
                           serves so many connections and ends, with draws by a seed
    oauthd serve 127.0.0.1:8080 registry.json 0707070707070707070707070707070707070707070707070707070707070707 1
oauthd registry FILE       says what the registry of a file has, or where its first fault is
    oauthd registry registry.json
oauthd registry FILE --state STATE
                           says how many codes and tokens of a state a start under that registry would end
    oauthd registry registry.json --state /var/lib/oauthd/state
oauthd state FILE          lists what the file of a server's state stands for, a line of JSON each
    oauthd state /var/lib/oauthd/state
oauthd state --front FILE  the same of a damaged one, up to the damage
    oauthd state --front damaged-state
oauthd state --new FILE    makes an empty file for a server's state
    oauthd state --new /var/lib/oauthd/state
oauthd state --etcd URLS --prefix NAME
                           lists what a list in etcd stands for; --new, --from FILE and --to FILE before it make one, or a file of it
    oauthd state --etcd http://127.0.0.1:2379 --prefix oauthd
oauthd replay FILE         prints what the server of a transcript sends to each connection
    oauthd replay transcript.txt
oauthd help NAME           says what a command or a fault means
    oauthd help UnsetRegister
oauthd --version           prints the version, the commit and the kit
    oauthd --version

The program ends with 0 where a command is done, 1 where a hook or an event is refused, 2
where it is used badly or a server can't go on, and 3 where memory is refused. A fault is one line on
standard error.
";

/// The version of the program, as it is printed, of which commit it was built, and with which kit. `deploy/make-deb` builds it
/// with its commit in place of the words that stand here: a source can't have the name of its own commit.
pub const VERSION: &str = "\
oauthd 0.1.0
commit: that of a checkout
kit: rattle-kit-13f logic dac8208d650f15bf
";
