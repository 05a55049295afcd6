//! The part of the C text that makes collectives.

/// Collectives, made of packets in a communicator of their own.
pub(crate) const COLLECTIVES: &str = r#"
// ---- Collectives ----
//
// They are made of packets in the order of the language, so that faults are the same. A
// packet begins with its kind, its root and the number of the collective.

enum kind { BARRIER = 0, BROADCAST = 1 };

static long long finished;

// The header of the collective that begins. One more than the greatest number faults.
static void begin(long long header[HEADER], int kind, int root)
{
    if (finished >= GREATEST_ORDINAL)
        end_rank(OUT_OF_RANGE);
    header[0] = kind;
    header[1] = root;
    header[2] = ++finished;
}

static void give(int destination, const long long header[HEADER], const long long *items, int count)
{
    start_send(COLLECTIVE, destination, 0, header, HEADER, items, count);
}

// Takes a packet, which is to be one of this collective. A count of -1 stands for any.
static struct packet get(int source, const long long header[HEADER], int count)
{
    struct packet it = receive_packet(COLLECTIVE, source, 0);
    if (it.count < HEADER || memcmp(it.items, header, HEADER * sizeof *header) != 0)
        end_rank(OTHER_COLLECTIVE);
    it.count -= HEADER;
    memmove(it.items, it.items + HEADER, (size_t) it.count * sizeof *it.items);
    if (count >= 0 && it.count != count)
        end_rank(OTHER_COLLECTIVE);
    return it;
}

static void make_barrier(void)
{
    long long header[HEADER];
    int rank;
    begin(header, BARRIER, 0);
    if (self.rank != 0) {
        give(0, header, NULL, 0);
        get(0, header, 0);
        return;
    }
    for (rank = 1; rank < self.size; rank++)
        get(rank, header, 0);
    for (rank = 1; rank < self.size; rank++)
        give(rank, header, NULL, 0);
}

static void make_broadcast(struct value root, long long *buffer, int length)
{
    long long header[HEADER];
    struct packet it;
    int rank, from;
    number_in(root);
    from = rank_in(root);
    begin(header, BROADCAST, from);
    if (self.rank == from) {
        for (rank = 0; rank < self.size; rank++)
            if (rank != from)
                give(rank, header, buffer, length);
        return;
    }
    it = get(from, header, -1);
    if (it.count > length)
        end_rank(TOO_LONG);
    memcpy(buffer, it.items, (size_t) it.count * sizeof *buffer);
}

static struct value combined(enum reduction by, struct value left, struct value right)
{
    if (by == BY_SUM || left.fault)
        return sum_of(left, right);
    if (by == BY_MAX)
        return left.number <= right.number ? right : left;
    return left.number <= right.number ? left : right;
}

// The root takes all values, and then combines them in rising rank order.
static struct value gathered(enum reduction by, const long long header[HEADER], long long own)
{
    struct list values = { NULL, 0, 0 };
    struct value result;
    int rank;
    for (rank = 0; rank < self.size; rank++)
        append(&values, rank == self.rank ? own : get(rank, header, 1).items[0]);
    result = number(values.items[0]);
    for (rank = 1; rank < self.size; rank++)
        result = combined(by, result, number(values.items[rank]));
    free(values.items);
    return result;
}

// Root and value are evaluated before the root is checked.
static void make_reduce(enum reduction by, struct value root, struct value value, long long *result)
{
    long long header[HEADER];
    int to;
    number_in(root);
    number_in(value);
    to = rank_in(root);
    begin(header, (int) by, to);
    if (self.rank == to)
        *result = number_in(gathered(by, header, value.number));
    else
        give(to, header, &value.number, 1);
}
"#;
