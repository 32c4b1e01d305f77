//! Worked schedules, as their tables stand in the specification.

/// A line of a schedule, the lines of the transcript that it brings, and the question that is open then.
pub(super) type Exchange = (&'static str, &'static str, &'static str);

/// A destructor refuses, so its object goes to the former owner of the one that is freed.
pub(super) const CHILD_REFUSES: &[Exchange] = &[
    ("tv schedule 1 pool", "tv transcript 1\n", "quiet"),
    ("call new 0 0 g", "reply 1\n", "quiet"),
    ("call new 1 0 p", "reply 2\n", "quiet"),
    ("call new 2 0 a", "reply 3\n", "quiet"),
    ("call new 2 0 b", "reply 4\n", "quiet"),
    ("call new 2 0 c", "reply 5\n", "quiet"),
    ("call hook 4 16", "reply ok\n", "quiet"),
    ("call free 2", "freed 5 0\n", "hook 4 16 0 0 0 0"),
    (
        "ret 1",
        "refused 4 1\nmoved 4 1\nfreed 3 0\nfreed 2 0\nreply ok\n",
        "quiet",
    ),
    ("call parent 4", "reply 1\n", "quiet"),
];

/// A destructor frees the owner of its object, and accepts.
pub(super) const OWNER_FREED: &[Exchange] = &[
    ("tv schedule 1 pool", "tv transcript 1\n", "quiet"),
    ("call new 0 0 p", "reply 1\n", "quiet"),
    ("call new 1 0 c", "reply 2\n", "quiet"),
    ("call hook 2 16", "reply ok\n", "quiet"),
    ("call free 2", "", "hook 2 16 0 0 0 0"),
    (
        "act free 1",
        "moved 2 0\nfreed 1 0\nreply ok\n",
        "hook 2 16 0 0 0 1",
    ),
    ("ret 0", "accepted 2\nfreed 2 16\nreply ok\n", "quiet"),
];

/// Two destructors free each other's object, and one of them moves the other one's.
pub(super) const EACH_OTHER: &[Exchange] = &[
    ("tv schedule 1 pool", "tv transcript 1\n", "quiet"),
    ("call new 0 0 a", "reply 1\n", "quiet"),
    ("call new 0 0 b", "reply 2\n", "quiet"),
    ("call hook 1 16", "reply ok\n", "quiet"),
    ("call hook 2 17", "reply ok\n", "quiet"),
    ("call free 1", "", "hook 1 16 0 0 0 0"),
    ("act free 2", "", "hook 2 17 0 0 0 0"),
    ("act free 1", "reply no 3 1\n", "hook 2 17 0 0 0 1"),
    ("act steal 2 1", "reply ok\n", "hook 2 17 0 0 0 2"),
    (
        "ret 0",
        "accepted 2\nmoved 1 0\nfreed 2 17\nreply ok\n",
        "hook 1 16 0 0 0 1",
    ),
    ("ret 0", "accepted 1\nfreed 1 16\nreply ok\n", "quiet"),
];

/// The heir of a child has come to stand inside it before its destructor refuses.
pub(super) const HEIR_INSIDE: &[Exchange] = &[
    ("tv schedule 1 pool", "tv transcript 1\n", "quiet"),
    ("call new 0 0 g", "reply 1\n", "quiet"),
    ("call new 1 0 p", "reply 2\n", "quiet"),
    ("call new 2 0 c", "reply 3\n", "quiet"),
    ("call hook 3 16", "reply ok\n", "quiet"),
    ("call free 2", "", "hook 3 16 0 0 0 0"),
    ("act steal 3 1", "reply ok\n", "hook 3 16 0 0 0 1"),
    (
        "ret 1",
        "refused 3 1\nmoved 3 0\nfreed 2 0\nreply ok\n",
        "quiet",
    ),
    ("call parent 1", "reply 3\n", "quiet"),
];

/// Requests are done, fail, are freed by their own cleanup, and time out.
pub(super) const REQUESTS: &[Exchange] = &[
    ("tv schedule 1 pool", "tv transcript 1\n", "quiet"),
    ("call req 0 8 st", "reply 1\n", "quiet"),
    ("call done 1", "state 1 2\nreply ok\n", "quiet"),
    ("call done 1", "reply no 13 1 2\n", "quiet"),
    ("call callback 1 16 5", "reply ok\n", "quiet"),
    ("call post 1", "reply ok\n", "quiet"),
    ("call iserror 1", "reply 0\n", "quiet"),
    (
        "call turn",
        "fired callback 1 16\n",
        "callback 1 16 5 0 0 0",
    ),
    (
        "act received 1",
        "state 1 6\nfreed 2 0\nreply ok\n",
        "callback 1 16 5 0 0 1",
    ),
    ("ret 0", "reply 1\n", "quiet"),
    ("call req 0 0 st", "reply 3\n", "quiet"),
    ("call error 3 0", "reply 0\n", "quiet"),
    ("call cleanup 3 17", "reply ok\n", "quiet"),
    ("call callback 3 16 0", "reply ok\n", "quiet"),
    ("call defer 3", "reply ok\n", "quiet"),
    (
        "call error 3 77",
        "state 3 3\nfired cleanup 3 17\n",
        "cleanup 3 17 3 0 0 0",
    ),
    ("ret 0", "reply 1\n", "quiet"),
    ("call iserror 3", "reply 3 77\n", "quiet"),
    (
        "call turn",
        "fired callback 3 16\n",
        "callback 3 16 0 0 0 0",
    ),
    ("ret 0", "reply 1\n", "quiet"),
    ("call req 0 0 st", "reply 5\n", "quiet"),
    ("call cleanup 5 17", "reply ok\n", "quiet"),
    ("call callback 5 16 0", "reply ok\n", "quiet"),
    (
        "call done 5",
        "state 5 2\nfired cleanup 5 17\n",
        "cleanup 5 17 2 0 0 0",
    ),
    (
        "act free 5",
        "state 5 6\nfired cleanup 5 17\n",
        "cleanup 5 17 6 0 0 0",
    ),
    (
        "ret 0",
        "freed 6 0\nfreed 5 0\nreply ok\n",
        "cleanup 5 17 2 0 0 1",
    ),
    ("ret 0", "reply ok\n", "quiet"),
    ("call req 0 0 st", "reply 7\n", "quiet"),
    ("call endtime 7 10", "reply ok\n", "quiet"),
    ("call turn", "", "clock"),
    ("clock 10", "state 7 4\nreply 1\n", "quiet"),
    ("call new 0 0 x", "reply 10\n", "quiet"),
];

/// Two clients of the line service: one makes an object with a destructor and sleeps, the other one asks for what isn't
/// its own, sleeps and goes. Lines come in pieces.
pub(super) const TWO_CLIENTS: &[Exchange] = &[
    (
        "tv schedule 1 service",
        "tv transcript 1\n",
        "wait 30000000",
    ),
    ("ready 0:1", "fired fd 2 1\n", "accept 0"),
    ("took 1", "", "wait 30000000"),
    ("ready 0:1", "fired fd 2 1\n", "accept 0"),
    ("took 2", "", "wait 30000000"),
    ("ready 1:1", "fired fd 4 2\n", "read 1 4096"),
    (
        "got 31206e65772030203520610a3220736c65",
        "",
        "write 1 3120390a",
    ),
    ("wrote 4", "", "wait 30000000"),
    ("ready 1:1", "fired fd 4 2\n", "read 1 4096"),
    ("got 65702035300a3320686f6f6b20392031370a", "", "clock"),
    ("clock 1000", "", "write 1 33206f6b0a"),
    ("wrote 5", "", "clock"),
    ("clock 1000", "", "wait 50"),
    ("ready 2:1", "fired fd 7 2\n", "read 2 4096"),
    ("got 34206672656520390a", "", "write 2 34206e6f203120390a"),
    ("wrote 9", "", "clock"),
    (
        "clock 1050",
        "state 10 4\nfired callback 10 3\nstate 10 6\nfreed 11 0\nfreed 10 0\n",
        "wait 30000000",
    ),
    ("ready 1:2", "fired fd 4 2\n", "write 1 32206f6b0a"),
    ("wrote 5", "", "wait 30000000"),
    ("ready 1:1", "fired fd 4 2\n", "read 1 4096"),
    ("end", "", "hook 9 17 0 0 0 0"),
    (
        "ret 1",
        "refused 9 1\nmoved 9 1\nfreed 5 0\nclosed 1\nmoved 4 1\nfreed 3 0\nfreed 4 0\n",
        "wait 30000000",
    ),
    ("ready 2:1", "fired fd 7 2\n", "read 2 4096"),
    ("got 3520736c65657020370a", "", "clock"),
    ("clock 1100", "", "clock"),
    ("clock 1100", "", "wait 7"),
    ("ready 2:1", "fired fd 7 2\n", "read 2 4096"),
    (
        "end",
        "state 13 6\nfreed 14 0\nfreed 13 0\nfreed 8 0\nclosed 2\nmoved 7 1\nfreed 6 0\nfreed 7 0\n",
        "wait 30000000",
    ),
];
