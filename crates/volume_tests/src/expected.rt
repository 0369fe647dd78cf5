// What a plain tree answers to commands, and the tree after each of them.

use line_shell::{read_script, write_reply};
use plain_volume::{Answers, PlainTree};
use posix_calls::{Reply, Stamped};
use std::alloc::Global;
use std::process::Abort;
use volume_terms::VolumeSizes;

/// Commands, and what a plain tree answers to them.
#[derive(Drop)]
pub(crate) struct Expected {
    pub(crate) commands: Vec<Stamped>,
    pub(crate) replies: Vec<String>,
    /// The tree before the first command and after each.
    pub(crate) trees: Vec<PlainTree>,
}

/// The tree of a device of eight blocks of 32 pages of 512 bytes that was just formatted with one block to spare.
pub(crate) fn new_tree(rt: &impl Abort, alloc: Global) -> PlainTree {
    PlainTree::new(alloc, VolumeSizes::new(512, 32, 8, 1)).expect(rt, "memory")
}

/// The text of a reply.
pub(crate) fn text_of(rt: &impl Abort, alloc: Global, reply: &Reply) -> String {
    let mut text = Vec::new(alloc);
    write_reply(&mut text, reply).expect(rt, "a reply");
    String::from_str(alloc, str::from_utf8(&text).expect(rt, "a text")).expect(rt, "memory")
}

/// What a plain tree answers to a command.
pub(crate) fn step(
    rt: &impl Abort,
    alloc: Global,
    tree: &mut PlainTree,
    stamped: &Stamped,
) -> String {
    let reply = tree.step(stamped).expect(rt, "memory");
    text_of(rt, alloc, &reply)
}

/// The commands of some lines.
pub(crate) fn commands_of(rt: &impl Abort, alloc: Global, lines: &str) -> Vec<Stamped> {
    let mut reader = lines.as_bytes();
    read_script(alloc, &mut reader).expect(rt, "a script")
}

/// The trees before the first of some commands and after each.
fn trees_of(rt: &impl Abort, alloc: Global, commands: &[Stamped]) -> Vec<PlainTree> {
    let mut trees = Vec::new(alloc);
    let mut tree = new_tree(rt, alloc);
    for stamped in commands {
        trees
            .push(tree.copy().expect(rt, "memory"))
            .expect(rt, "memory");
        let _reply = tree.step(stamped).expect(rt, "memory");
    }
    trees.push(tree).expect(rt, "memory");
    trees
}

/// What a plain tree answers to some commands.
fn replies_of(rt: &impl Abort, alloc: Global, commands: &[Stamped]) -> Vec<String> {
    let mut replies = Vec::new(alloc);
    let mut tree = new_tree(rt, alloc);
    for stamped in commands {
        replies
            .push(step(rt, alloc, &mut tree, stamped))
            .expect(rt, "memory");
    }
    replies
}

/// The expected of these lines.
pub(crate) fn expected_of(rt: &impl Abort, alloc: Global, lines: &str) -> Expected {
    let commands = commands_of(rt, alloc, lines);
    let replies = replies_of(rt, alloc, &commands);
    let trees = trees_of(rt, alloc, &commands);
    Expected {
        commands,
        replies,
        trees,
    }
}

impl Expected {
    /// Looks whether a volume has the tree before the command of a number, or that of one after it, up to another number.
    pub(crate) fn has_tree<V: Answers>(
        &self,
        rt: &impl Abort,
        volume: &mut V,
        from: usize,
        to: usize,
    ) -> bool {
        for tree in self.trees.get(from..=to).unwrap_or(&[]) {
            if tree.same(volume).expect(rt, "a tree") {
                return true;
            }
        }
        false
    }

    /// Looks whether this is answered to the command of a number.
    pub(crate) fn expect_reply(
        &self,
        rt: &impl Abort,
        alloc: Global,
        number: usize,
        reply: &Reply,
    ) {
        let wanted = self.replies.get(number).expect(rt, "no such command");
        let answers = text_of(rt, alloc, reply);
        assert_eq!(rt; answers.as_str(), wanted.as_str(), "{number}");
    }
}
