//! The table of refusals.

use crate::numbers::{
    BAD_ADDRESS, BAD_CONTROL_SOCKET, BAD_INTERFACES, BAD_KEY, BAD_ROW, BAD_SETTINGS, BROKEN_ANSWER,
    FILE_EXISTS, INVALID_ARGUMENTS, NO_PACKET, NO_SCRIPT, NO_STORE, NOBODY_ANSWERS, NODE_FAILED,
    POSITIONS_SPENT, ROUNDS_SPENT, STORE_FAILED, UNKNOWN_STORE, UNREADABLE, WAITING_FULL,
};
use crate::paragraph::Explanation;

const TEXT_STAYS: &str = "The ruleset isn't loaded; what was loaded before stays as it was.";

const COMMAND_STAYS: &str = "The command changes nothing; a script goes on with its next line.";

const ASK_STAYS: &str = "The command isn't accepted, and the node goes on.";

const STORE_STAYS: &str = "The node isn't started, and the store stays as it was.";

/// Rows of a table: a refusal's number and short name, what holds after it; where it comes; what to do.
macro_rules! explanations {
    ($($code:tt $name:literal $after:tt $meaning:literal $remedy:literal;)*) => {
        [$(Explanation {
            code: $code,
            name: $name,
            meaning: $meaning,
            after: $after,
            remedy: $remedy,
        }),*]
    };
}

/// Each refusal once, by number. `scripts/refusals` compares it with the list in pfx(8).
pub const REFUSALS: [Explanation; 44] = explanations! {
    1 "no number in an address" COMMAND_STAYS
        "a component of an address that is no number; for -T test also a ! or a\n         \
            prefix"
        "Write numbers of 0 to 255, in IPv6 groups of 1 to 4 hexadecimal digits.";
    2 "address of no form" COMMAND_STAYS
        "an address with too few or too many components"
        "IPv4 has four numbers, in a prefix one to four; IPv6 has eight groups,\n         \
            or :: once.";
    3 "bad prefix length" COMMAND_STAYS
        "a prefix's length that is no number, or more than the address has bits"
        "Lengths are 0 to 32 for IPv4 and 0 to 128 for IPv6.";
    10 "unknown character" TEXT_STAYS
        "a character that begins no token; a string without its closing quote"
        "From the named line on, look for a character that isn't in the\n         \
            language, or for a missing quote.";
    11 "bad macro" TEXT_STAYS
        "an unknown macro; a macro's name that is reserved or has other\n         \
            characters; a string with $ or #; more than 4,096 bytes"
        "Define a macro above its first use. Its name is letters, digits and _,\n         \
            and no reserved word.";
    12 "syntax error" TEXT_STAYS
        "a statement that isn't in the grammar; a block on x/*; an anchor rule\n         \
            with neither name nor block; set, a table or a macro in a block"
        "Compare the statement with the grammar. States, routes, users and\n         \
            clocks of pf.conf(5) aren't part of it.";
    13 "bad port" TEXT_STAYS
        "a port that is neither number nor name; a port where the protocols\n         \
            aren't all tcp or udp, or none is named"
        "Write proto tcp, udp or both in the rule; ports are 0 to 65535 or a\n         \
            name of the list.";
    14 "no combination of one family" TEXT_STAYS
        "no combination of addresses of one family"
        "Give source and destination addresses of one family, that of inet or\n         \
            inet6 where that is written.";
    15 "reserved anchor name" TEXT_STAYS
        "a name in an anchor rule that begins with _, except \"_k\" alone, without\n         \
            a block, after the k-th unnamed block of its ruleset"
        "Choose a name without _ in front: such names are those of unnamed\n         \
            blocks.";
    16 "defined twice" TEXT_STAYS
        "two table statements of one name; two blocks with one path"
        "Put the entries into one table statement, the rules into one block.";
    17 "set in an anchor" TEXT_STAYS
        "set in a ruleset for an anchor"
        "Write set into the main ruleset alone.";
    18 "too many" TEXT_STAYS
        "more than 65,536 tokens or combinations, 64 open braces, 8 nested\n         \
            lists, 1,024 rules in a ruleset, 4,096 prefixes in a table"
        "Use a table for long lists of addresses, anchors for many rules.";
    19 "bad icmp-type" TEXT_STAYS
        "icmp-type of no type, or where the protocols aren't all icmp, or none\n         \
            is named"
        "Write proto icmp in the rule; a type is 0 to 255, echoreq or echorep.";
    20 "no such table" COMMAND_STAYS
        "no such table"
        "List the tables of the path by -s Tables; -T add makes one.";
    21 "const table" COMMAND_STAYS
        "a table that may not be changed (const)"
        "Change the ruleset that declares the table, and load it.";
    22 "table full" COMMAND_STAYS
        "more than 4,096 entries in a table"
        "Delete entries, or put prefixes in place of single addresses.";
    23 "too many anchors"
        "The command changes nothing."
        "more than 1,024 paths"
        "Flush anchors that nothing needs (-a PATH -F all), and load again.";
    24 "bad path"
        "The command changes nothing."
        "a malformed path of an anchor; a block deeper than 8 names"
        "A path is 1 to 8 names between slashes, none of which begins with _.";
    NO_PACKET "no packet"
        "The verdicts before it are printed, and none after it."
        "a packet that isn't in the form of pfx test"
        "Compare the packet with pfx test --help: one family, ports for tcp and\n         \
            udp alone, an icmp-type as a number.";
    INVALID_ARGUMENTS "invalid arguments" COMMAND_STAYS
        "arguments that form no command, another file than -, an unknown line"
        "Look at pfx ctl --help, or at pfx ask --help.";
    41 "change too long" COMMAND_STAYS
        "a change of more than 32,768 bytes or 4,096 addresses"
        "Divide the change: a ruleset into anchors, addresses into several\n         \
            commands.";
    WAITING_FULL "64 commands wait" ASK_STAYS
        "a command, while 64 others wait"
        "See by pfx ask --control PATH status that a majority is heard, and ask\n         \
            again.";
    ROUNDS_SPENT "no round left"
        "The node proposes nothing more; what was learned stays."
        "a tick, since every round is used"
        "Set up a successor: pfx show --store FILE --script, whose commands pfx\n         \
            ask --script asks of a new cluster.";
    POSITIONS_SPENT "no position left"
        "The command isn't accepted; what was learned stays, and verdicts are\n         \
            answered."
        "a command, since every position or number is used; at a control socket\n         \
            also since those left are reserved for waiting commands"
        "Set up a successor: pfx show --store FILE --script, whose commands pfx\n         \
            ask --script asks of a new cluster.";
    STORE_FAILED "store failed"
        "The change is made whole or not at all; the node sends nothing of it,\n         \
            and ends."
        "a store that can't be opened or fails, or is no file; another process\n         \
            has it open"
        "If the disk is full, make room and start the node again. If the disk\n         \
            fails, the record is lost. See that only one node uses the store.";
    71 "another cluster's store" STORE_STAYS
        "a store of another cluster, another number of members, or another node"
        "Give --cluster, --me and as many addresses as when the store was made.";
    BAD_ROW "bad row in the store" STORE_STAYS
        "a store with a row that no node writes, or without its node's row"
        "The record is lost: don't mend it by hand, and don't start a node of\n         \
            this number on an older copy.";
    UNKNOWN_STORE "unknown store" STORE_STAYS
        "a store with other tables, or of a later version"
        "See that the file is a node's store; run the program that wrote it.";
    NODE_FAILED "node failed"
        "The node learns and sends nothing more."
        "any request to a node whose store failed"
        "End it, mend what made its store fail (70, 72), and start it again.";
    81 "no such node or message"
        "The line does nothing; the script goes on with its next line."
        "a node or a message of a lab that isn't there"
        "Nodes count from 0; the line sent prints the numbers of messages.";
    BAD_ADDRESS "bad address"
        "No socket is open, and the store stays as it was."
        "a malformed address, or one that the system refuses"
        "Write 192.0.2.1:4711, [2001:db8::1]:4711 or host:4711, each of one\n         \
            family; see that the node's port is free.";
    BAD_KEY "bad key file"
        "The node isn't started, and its store isn't read."
        "a key file: it can't be read or created, isn't 64 hexadecimal digits,\n         \
            or others may read it"
        "Make a key by pfx key, and let its owner alone read the file (mode\n         \
            0600).";
    BAD_CONTROL_SOCKET "bad control socket" STORE_STAYS
        "a control socket: another node answers there, something else is there,\n         \
            or the system refuses the socket"
        "Give each node a control socket of its own, in a folder that the node\n         \
            may write.";
    NOBODY_ANSWERS "nobody answers"
        "Nothing was asked."
        "a request, since nobody answers at the control socket"
        "See that the node runs with --control and this very path, and that you\n         \
            may open the socket.";
    BROKEN_ANSWER "broken answer"
        "The request may have been accepted."
        "an answer at a control socket that is cut short, or isn't HTTP"
        "See by pfx ask --control PATH log whether it was, or ask again.";
    87 "anchor in itself"
        "Nothing is rendered."
        "rules for nftables: an anchor rule's target is the anchor that holds it"
        "Let the anchor rule name another anchor.";
    88 "too many rules a packet"
        "Nothing is rendered or computed."
        "a ruleset that may compare a packet with too many rules: with more than\n         \
            100,000 it isn't rendered for nftables, with more than 10,000 a running\n         \
            node computes no verdict"
        "Let fewer anchor rules name one anchor, or nest them less deep.";
    BAD_INTERFACES "bad file of interfaces"
        "Nothing is rendered."
        "a file of interfaces: it can't be read, has a malformed name, a name\n         \
            twice, or more than 1,024"
        "A line of the file has an interface and its groups, with blanks between\n         \
            them.";
    UNREADABLE "file can't be read"
        "Nothing of it is used."
        "a file that can't be read, has more than 16,777,216 bytes, or holds\n         \
            packets that aren't UTF-8"
        "See that the file is there, and that you may read it.";
    NO_SCRIPT "no script"
        "No script is printed, and the store stays as it was."
        "a configuration that no script gives"
        "Look by -s at what the store holds, and load it by hand.";
    BAD_SETTINGS "bad file of settings"
        "No node is started."
        "a node's settings: the file isn't TOML, or has an unknown setting or a\n         \
            value of another type; me, cluster or store is given neither there nor\n         \
            by an option; other-key or new-starts without a key, metrics without a\n         \
            control socket"
        "See standard error, which names the line and the reason, and the\n         \
            example in pfx-node(8).";
    NO_STORE "no store"
        "No node is started, and no store is created."
        "a node's store that is missing or empty, with settings from a file and\n         \
            without --new"
        "If the node never ran, start it once with --new. If it ran, its record\n         \
            is lost: don't start it, and set up a successor. See that all is\n         \
            mounted.";
    FILE_EXISTS "file exists"
        "Nothing is created, and the file stays as it was."
        "a file to create that exists: a store with --new, a new key file"
        "Start a node on its store without --new; give a new key a name of its\n         \
            own.";
    95 "bad file of starts"
        "The node isn't started. Its store and the file stay as they were."
        "the file STORE-starts of a node with a key: it is missing beside a\n         \
            store that isn't new, is damaged or another cluster's, or can't be\n         \
            written"
        "Bring the file back, or start the node once with --new-starts, which\n         \
            creates a missing one.";
};
