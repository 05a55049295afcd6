//! The part of the C text that begins and ends a rank.

/// How a rank ends, what rank 0 prints and writes, and `main`.
pub(crate) const ENDING: &str = r#"
// ---- How a rank ends ----

static FILE *outcome;

// When all ranks have ended, each takes what was sent to it and not received. So each
// send gets done, as MPI_Finalize asks for, and each hit learns the clock of its message.
static void take_rest(void)
{
    long long *due = zeros((size_t) self.size * sizeof *due);
    int context, source;
    size_t i;
    for (context = MESSAGE; context <= COLLECTIVE; context++) {
        MPI_Alltoall(sent[context], 1, ITEM, due, 1, ITEM, reports);
        for (source = 0; source < self.size; source++)
            while (taken[context][source] < due[source])
                take((enum context) context, source, MPI_ANY_TAG);
    }
    free(due);
    for (i = 0; i < outgoing_count; i++) {
        MPI_Status status;
        MPI_Wait(&outgoing[i].request, &status);
        free(outgoing[i].packet);
    }
}

// At most so many numbers are handed over at once.
enum { AT_ONCE = 65536 };

static void hand_over(const struct list *list)
{
    long long count = (long long) list->count;
    size_t i;
    MPI_Send(&count, 1, ITEM, 0, 0, reports);
    for (i = 0; i < list->count; i += AT_ONCE) {
        size_t left = list->count - i;
        MPI_Send(list->items + i, left < AT_ONCE ? (int) left : AT_ONCE, ITEM, 0, 0, reports);
    }
}

static struct list taken_over(int rank)
{
    struct list list = { NULL, 0, 0 };
    MPI_Status status;
    long long count, i;
    MPI_Recv(&count, 1, ITEM, rank, 0, reports, &status);
    list.count = list.room = (size_t) count;
    list.items = memory(NULL, (list.count + 1) * sizeof *list.items);
    for (i = 0; i < count; i += AT_ONCE) {
        long long left = count - i;
        MPI_Recv(list.items + i, left < AT_ONCE ? (int) left : AT_ONCE, ITEM, rank, 0, reports, &status);
    }
    return list;
}

// Gives each rank's list to this function of rank 0, in rising rank order.
static void at_rank_0(struct list *own, void (*with)(int, const struct list *))
{
    int rank;
    if (self.rank != 0) {
        hand_over(own);
        return;
    }
    with(0, own);
    for (rank = 1; rank < self.size; rank++) {
        struct list list = taken_over(rank);
        with(rank, &list);
        free(list.items);
    }
}

static void print_lines(int rank, const struct list *list)
{
    size_t i;
    for (i = 0; i < list->count; i++)
        printf("%d> %lld\n", rank, list->items[i]);
}

static void print_end(FILE *file, const char *form, int rank, int fault)
{
    fprintf(file, form, rank);
    if (fault)
        fprintf(file, "fault %d\n", fault);
    else
        fprintf(file, "halted\n");
}

static void write_events(int rank, const struct list *list)
{
    size_t i;
    for (i = 0; i < list->count; i += EVENT_ITEMS) {
        const long long *event = list->items + i;
        switch ((enum event) event[0]) {
        case RECEPTION:
            fprintf(outcome, "recv %d at %lld from %lld at %lld\n", rank, event[1], event[2], event[3]);
            break;
        case HIT:
            fprintf(outcome, "hit %d at %lld from %lld at %lld\n", rank, event[1], event[2], event[3]);
            break;
        case MISS:
            fprintf(outcome, "miss %d at %lld\n", rank, event[1]);
            break;
        case PRINT:
            fprintf(outcome, "print %d at %lld %lld\n", rank, event[1], event[3]);
            break;
        }
    }
}

// What rank 0 prints and writes of all ranks, and the status of all.
static int report(int fault)
{
    int *faults = zeros((size_t) self.size * sizeof *faults);
    int rank, status = 0;
    at_rank_0(&printed, print_lines);
    if (is_recorded)
        at_rank_0(&record, write_events);
    MPI_Gather(&fault, 1, MPI_INT, faults, 1, MPI_INT, 0, reports);
    for (rank = 0; self.rank == 0 && rank < self.size; rank++) {
        print_end(stdout, "rank %d: ", rank, faults[rank]);
        if (is_recorded)
            print_end(outcome, "end %d ", rank, faults[rank]);
        if (faults[rank])
            status = 1;
    }
    free(faults);
    if (fflush(stdout) != 0 || ferror(stdout))
        status = 5;
    if (outcome != NULL && (ferror(outcome) | fclose(outcome))) {
        fprintf(stderr, "cannot write the outcome\n");
        status = 5;
    }
    MPI_Bcast(&status, 1, MPI_INT, 0, reports);
    return status;
}

// Ends the process with this status.
static void finish(int status)
{
    MPI_Finalize();
    exit(status);
}

// A rank that has ended waits for all others. Meanwhile the library goes on with the sends
// that this rank has started (MPI 1.1, section 3.7.4).
static void end_rank(int fault)
{
    MPI_Barrier(reports);
    take_rest();
    finish(report(fault));
}

// ---- How a rank begins ----

// What rank 0 finds of the arguments: a status that isn't 0, or -1 if all is well.
static int arguments(int argc, char **argv)
{
    if (argc == 1)
        return -1;
    if (argc != 3 || strcmp(argv[1], "--outcome") != 0) {
        fprintf(stderr, "usage: %s [--outcome FILE]\n", argv[0]);
        return 3;
    }
    outcome = fopen(argv[2], "w");
    if (outcome == NULL) {
        fprintf(stderr, "cannot write %s\n", argv[2]);
        return 2;
    }
    is_recorded = 1;
    return -1;
}

// A program may do without some statements and operators. Compilers warn of functions that
// nothing names, so they are named here.
static void name_all(void)
{
    (void) item_of, (void) negative_of, (void) sum_of, (void) difference_of, (void) product_of;
    (void) quotient_of, (void) remainder_of, (void) is_equal, (void) is_unequal, (void) is_less;
    (void) is_at_most, (void) is_greater, (void) is_at_least, (void) any, (void) exactly;
    (void) declare, (void) set_variable, (void) set_item, (void) is_nonzero, (void) send_value;
    (void) send_items, (void) receive_items, (void) await_message, (void) find_message;
    (void) print_value, (void) make_barrier, (void) make_broadcast, (void) make_reduce;
}

static void begin_rank(int argc, char **argv)
{
    int rank, size, context, status = -1;
    name_all();
    MPI_Init(&argc, &argv);
    MPI_Comm_rank(MPI_COMM_WORLD, &rank);
    MPI_Comm_size(MPI_COMM_WORLD, &size);
    MPI_Comm_dup(MPI_COMM_WORLD, &reports);
    self.rank = rank;
    self.size = size;
    for (context = MESSAGE; context <= COLLECTIVE; context++) {
        MPI_Comm_dup(MPI_COMM_WORLD, &communicators[context]);
        sent[context] = zeros((size_t) size * sizeof *sent[context]);
        taken[context] = zeros((size_t) size * sizeof *taken[context]);
    }
    if (rank == 0)
        status = arguments(argc, argv);
    MPI_Bcast(&status, 1, MPI_INT, 0, reports);
    MPI_Bcast(&is_recorded, 1, MPI_INT, 0, reports);
    if (status >= 0)
        finish(status);
}

int main(int argc, char **argv)
{
    begin_rank(argc, argv);
    run_program();
    end_rank(0);
    return 0;
}
"#;
