//! The part of the C text that sends, receives and probes.

/// Messages, with what they leave in the record of `--outcome`.
pub(crate) const MESSAGES: &str = r#"
// ---- Memory ----

// Memory of this size, with what the old memory had.
static void *memory(void *old, size_t bytes)
{
    void *found = realloc(old, bytes);
    if (found == NULL) {
        fprintf(stderr, "out of memory\n");
        MPI_Abort(MPI_COMM_WORLD, 4);
        exit(4);
    }
    return found;
}

// Memory of this size, all zero.
static void *zeros(size_t bytes)
{
    return memset(memory(NULL, bytes), 0, bytes);
}

// A list of numbers, which grows.
struct list {
    long long *items;
    size_t count, room;
};

static void append(struct list *list, long long item)
{
    if (list->count == list->room) {
        list->room = list->room ? 2 * list->room : 64;
        list->items = memory(list->items, list->room * sizeof *list->items);
    }
    list->items[list->count++] = item;
}

// ---- Packets ----

// A message of the program, or a packet of a collective. Each has a communicator of its
// own, so no receive and no probe of the program sees a packet of a collective.
enum context { MESSAGE, COLLECTIVE };

// An item on its way. The first item of each packet is the clock of its send.
#define ITEM MPI_LONG_LONG_INT

enum { MOST_ITEMS = 256, HEADER = 3, GREATEST_TAG = 32767, GREATEST_ORDINAL = 268435455 };

static MPI_Comm communicators[2];
static MPI_Comm reports;

// How many packets this rank sent to each rank, and took from each, by context.
static long long *sent[2], *taken[2];

// How many acts this rank made: sends, receptions, answers to probes, prints.
static long long acts;

static struct list printed;

struct packet {
    int source, tag, count;
    long long sent_at;
    long long items[HEADER + MOST_ITEMS];
};

// ---- The record of `--outcome` ----

enum event { RECEPTION, HIT, MISS, PRINT };
enum { EVENT_ITEMS = 4 };

static int is_recorded;

// Four numbers for each event: what it is, its clock, its source, and the clock of the
// send, or the value that was printed.
static struct list record;

// Where the record has hits whose messages haven't been received yet, and their tags.
static struct list open_hits, open_tags;

static void note(enum event event, long long source, long long detail)
{
    if (!is_recorded)
        return;
    append(&record, event);
    append(&record, acts);
    append(&record, source);
    append(&record, detail);
}

// A probe doesn't see the clock of a message. By the order of messages, the next one that
// is received from this source with this tag is the one that the probe found.
static void note_hit(int source, int tag)
{
    note(HIT, source, 0);
    if (!is_recorded)
        return;
    append(&open_hits, (long long) (record.count - EVENT_ITEMS));
    append(&open_tags, tag);
}

static void close_hits(const struct packet *packet)
{
    size_t kept = 0, i;
    for (i = 0; i < open_hits.count; i++) {
        long long *hit = record.items + open_hits.items[i];
        if (hit[2] == packet->source && open_tags.items[i] == packet->tag) {
            hit[3] = packet->sent_at;
        } else {
            open_hits.items[kept] = open_hits.items[i];
            open_tags.items[kept++] = open_tags.items[i];
        }
    }
    open_hits.count = open_tags.count = kept;
}

// ---- Sends ----

// A send that is started never waits: its packet is kept until it is done (MPI 1.1,
// section 3.7). So the library needs no room for what waits.
struct outgoing {
    MPI_Request request;
    long long *packet;
};

static struct outgoing *outgoing;
static size_t outgoing_count, outgoing_room, next_look;

// Lets go of the packets whose sends are done.
static void drop_done(void)
{
    size_t kept = 0, i;
    for (i = 0; i < outgoing_count; i++) {
        int is_done;
        MPI_Status status;
        MPI_Test(&outgoing[i].request, &is_done, &status);
        if (is_done)
            free(outgoing[i].packet);
        else
            outgoing[kept++] = outgoing[i];
    }
    outgoing_count = kept;
    next_look = 2 * kept + 64;
}

static struct outgoing *next_outgoing(void)
{
    if (outgoing_count >= next_look)
        drop_done();
    if (outgoing_count == outgoing_room) {
        outgoing_room = outgoing_room ? 2 * outgoing_room : 64;
        outgoing = memory(outgoing, outgoing_room * sizeof *outgoing);
    }
    return &outgoing[outgoing_count++];
}

// Starts a send of two lists of items, one after the other.
static void start_send(enum context context, int destination, int tag, const long long *header,
                       int header_count, const long long *items, int count)
{
    int length = 1 + header_count + count;
    struct outgoing *it = next_outgoing();
    it->packet = memory(NULL, (size_t) length * sizeof *it->packet);
    it->packet[0] = ++acts;
    if (header_count > 0)
        memcpy(it->packet + 1, header, (size_t) header_count * sizeof *header);
    if (count > 0)
        memcpy(it->packet + 1 + header_count, items, (size_t) count * sizeof *items);
    MPI_Isend(it->packet, length, ITEM, destination, tag, communicators[context], &it->request);
    sent[context][destination]++;
}

// Sends a message of the program.
static void send_message(int destination, int tag, const long long *items, int count);

static int rank_in(struct value value)
{
    if (value.number < 0 || value.number >= self.size)
        end_rank(BAD_RANK);
    return (int) value.number;
}

static int tag_in(struct value value)
{
    if (value.number < 0 || value.number > GREATEST_TAG)
        end_rank(BAD_TAG);
    return (int) value.number;
}

// Destination, tag and payload are evaluated before destination and tag are checked.
static void send_items(struct value destination, struct value tag, const long long *items, int count)
{
    int to, with;
    number_in(destination);
    number_in(tag);
    to = rank_in(destination);
    with = tag_in(tag);
    send_message(to, with, items, count);
}

static void send_value(struct value destination, struct value tag, struct value value)
{
    number_in(destination);
    number_in(tag);
    number_in(value);
    send_items(destination, tag, &value.number, 1);
}

// ---- Receptions and probes ----

// What a receive or a probe asks for, as MPI has it.
struct selector {
    int source, tag;
};

// Source and tag are evaluated before they are checked.
static struct selector selector_of(struct pattern source, struct pattern tag)
{
    struct selector it;
    number_in(source.value);
    number_in(tag.value);
    it.source = source.is_any ? MPI_ANY_SOURCE : rank_in(source.value);
    it.tag = tag.is_any ? MPI_ANY_TAG : tag_in(tag.value);
    return it;
}

// Receives a packet. It is an act only if the program receives it.
static struct packet take(enum context context, int source, int tag)
{
    long long items[1 + HEADER + MOST_ITEMS];
    struct packet it;
    MPI_Status status;
    int length;
    MPI_Recv(items, 1 + HEADER + MOST_ITEMS, ITEM, source, tag, communicators[context], &status);
    MPI_Get_count(&status, ITEM, &length);
    it.source = status.MPI_SOURCE;
    it.tag = status.MPI_TAG;
    it.count = length - 1;
    it.sent_at = items[0];
    memcpy(it.items, items + 1, (size_t) it.count * sizeof *items);
    taken[context][it.source]++;
    if (context == MESSAGE)
        close_hits(&it);
    return it;
}

static struct packet receive_packet(enum context context, int source, int tag)
{
    struct packet it = take(context, source, tag);
    acts++;
    note(RECEPTION, it.source, it.sent_at);
    return it;
}

// What probes found since the last reception: what each asked for, and the envelope. MPI
// (section 3.8) lets a later call with the same wildcards take another message, if that
// arrived in between. The language doesn't.
static struct list shown;

static struct selector as_shown(struct selector asked)
{
    size_t i;
    for (i = 0; i < shown.count; i += 4) {
        if (shown.items[i] == asked.source && shown.items[i + 1] == asked.tag) {
            asked.source = (int) shown.items[i + 2];
            asked.tag = (int) shown.items[i + 3];
            return asked;
        }
    }
    return asked;
}

static void show(struct selector asked, int source, int tag)
{
    struct selector known = as_shown(asked);
    if (known.source == source && known.tag == tag)
        return;
    append(&shown, asked.source);
    append(&shown, asked.tag);
    append(&shown, source);
    append(&shown, tag);
}

static void set_status(int source, int tag, int count)
{
    self.source = source;
    self.gottag = tag;
    self.count = count;
}

static void receive_items(struct pattern source, struct pattern tag, long long *buffer, int length)
{
    struct selector asked = as_shown(selector_of(source, tag));
    struct packet it = receive_packet(MESSAGE, asked.source, asked.tag);
    shown.count = 0;
    if (it.count > length)
        end_rank(TOO_LONG);
    memcpy(buffer, it.items, (size_t) it.count * sizeof *buffer);
    set_status(it.source, it.tag, it.count);
}

// A probe found the message with this status.
static void hit(struct selector asked, MPI_Status status)
{
    int length;
    MPI_Get_count(&status, ITEM, &length);
    show(asked, status.MPI_SOURCE, status.MPI_TAG);
    acts++;
    note_hit(status.MPI_SOURCE, status.MPI_TAG);
    set_status(status.MPI_SOURCE, status.MPI_TAG, length - 1);
}

static void await_message(struct pattern source, struct pattern tag)
{
    struct selector asked = selector_of(source, tag);
    struct selector known = as_shown(asked);
    MPI_Status status;
    MPI_Probe(known.source, known.tag, communicators[MESSAGE], &status);
    hit(asked, status);
}

static void find_message(struct pattern source, struct pattern tag, long long *flag)
{
    struct selector asked = selector_of(source, tag);
    struct selector known = as_shown(asked);
    MPI_Status status;
    int is_there;
    MPI_Iprobe(known.source, known.tag, communicators[MESSAGE], &is_there, &status);
    *flag = is_there != 0;
    if (is_there) {
        hit(asked, status);
    } else {
        acts++;
        note(MISS, 0, 0);
    }
}

static void print_value(struct value value)
{
    append(&printed, number_in(value));
    acts++;
    note(PRINT, 0, value.number);
}
"#;
