//! The parts of the C text that differ by how a message is sent.

/// A send that never waits, as in the language.
pub(crate) const STARTED: &str = r#"
// ---- How a message is sent ----

static void send_message(int destination, int tag, const long long *items, int count)
{
    start_send(MESSAGE, destination, tag, NULL, 0, items, count);
}
"#;

/// A send that waits until its message is received.
pub(crate) const AWAITED: &str = r#"
// ---- How a message is sent ----

// The rank waits until its message is received (MPI 1.1, section 3.4).
static void send_message(int destination, int tag, const long long *items, int count)
{
    long long packet[1 + MOST_ITEMS];
    packet[0] = ++acts;
    memcpy(packet + 1, items, (size_t) count * sizeof *items);
    MPI_Ssend(packet, 1 + count, ITEM, destination, tag, communicators[MESSAGE]);
    sent[MESSAGE][destination]++;
}
"#;
