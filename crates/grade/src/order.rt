// The order of the segments.
ghost use Rattle.std.specs.Prelude.{◌≡◌};
ghost use Rattle.grade.specs.Order.{may_follow, out_of_order, table_of, table_says};

const Y: bool = true;

const N: bool = false;

// Which name may come next: columns are the end, then MSH PID PD1 NK1 PV1 ORC RXA RXR OBX NTE.
const FOLLOW: [[bool; 11]; 10] = [
    [N, N, Y, N, N, N, N, N, N, N, N], // after MSH
    [Y, N, N, Y, Y, Y, Y, N, N, N, N], // after PID
    [Y, N, N, N, Y, Y, Y, N, N, N, N], // after PD1
    [Y, N, N, N, Y, Y, Y, N, N, N, N], // after NK1
    [Y, N, N, N, N, N, Y, N, N, N, N], // after PV1
    [N, N, N, N, N, N, N, Y, N, N, N], // after ORC
    [Y, N, N, N, N, N, Y, N, Y, Y, N], // after RXA
    [Y, N, N, N, N, N, Y, N, N, Y, N], // after RXR
    [Y, N, N, N, N, N, Y, N, N, Y, Y], // after OBX
    [Y, N, N, N, N, N, Y, N, N, Y, Y], // after NTE
];

// The table, lent to the grader: the one place where it is compared with the order.
pub fn follow_table() -> [[bool; 11]; 10]
    ensures { result ≡ table_of may_follow }
{
    FOLLOW
}

// Whether a name, or the end, may not follow the counted name before it, by the table.
pub(crate) fn out_of_order(table: &[[bool; 11]; 10], before: usize, name: usize) -> bool
    ensures { result ≡ out_of_order (table_says table.now) before name }
{
    if before == 0 {
        return false;
    }
    if 10 < before {
        return false;
    }
    if 10 < name {
        return false;
    }
    !table[before - 1][name]
}
