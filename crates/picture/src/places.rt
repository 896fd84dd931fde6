//! Where things stand.

ghost use Rattle.std.specs.Prelude.{◌≡◌};
ghost use Rattle.picture.specs.Places.{lane_x, node_x, page_end, page_of, page_top, picture_width, row_y};

use net_script::Sizes;
use protocol::NodeId;

/// How many lines of a trace a page has.
pub(crate) const PAGE_LINES: u32 = 90;
/// How high a page is, its head and the space below it among that.
const PAGE_HEIGHT: u64 = 1420;
/// Where the first page begins, below the legend.
const FIRST_PAGE: u64 = 110;
/// How far the first row of a page is below its top.
const HEAD_HEIGHT: u64 = 36;
/// How far rows are apart.
pub(crate) const ROW_HEIGHT: u64 = 15;
/// How far below its last row a page's lanes end.
const FOOT_HEIGHT: u64 = 10;
/// Where the lane of the first node is.
const FIRST_LANE: u64 = 372;
/// How far lanes are apart.
const LANE_WIDTH: u64 = 98;
/// Where that stands which is of no node of the cluster.
pub(crate) const BESIDE: u64 = 322;
/// How much room the name of a transaction has.
const NAME_WIDTH: u64 = 110;
/// The least width of a picture: that of its legend.
const LEAST_WIDTH: u64 = 860;

/// The page of a line, from 0.
pub(crate) fn page_of(line: u32) -> u32
    ensures { result ≡ page_of line }
{
    line.saturating_sub(1) / PAGE_LINES
}

/// Where a page begins.
pub(crate) fn page_top(page: u32) -> u64
    ensures { result ≡ page_top page }
{
    FIRST_PAGE + PAGE_HEIGHT * u64::from(page)
}

/// How far down the row of a line is.
pub(crate) fn row_y(line: u32) -> u64
    ensures { result ≡ row_y line }
{
    let below_first = u64::from(line.saturating_sub(1) % PAGE_LINES);
    page_top(page_of(line)) + HEAD_HEIGHT + ROW_HEIGHT * below_first
}

/// Where the lanes of a page end, in a picture of so many lines.
pub(crate) fn page_end(page: u32, lines: u32) -> u64
    ensures { result ≡ page_end page lines }
{
    let last_row = page_top(page) + HEAD_HEIGHT + ROW_HEIGHT * u64::from(PAGE_LINES - 1);
    row_y(lines).min(last_row) + FOOT_HEIGHT
}

/// The lane of a node of this number, behind those of two kinds.
pub(crate) fn lane_x(first: u32, second: u32, number: u32) -> u64
    ensures { result ≡ lane_x first second number }
{
    FIRST_LANE + LANE_WIDTH * (u64::from(first) + u64::from(second) + u64::from(number))
}

/// The lane of a node, or the place beside the lanes, if it is none of the cluster.
pub(crate) fn node_x(sizes: Sizes, node: NodeId) -> u64
    ensures { result ≡ node_x sizes node }
{
    match node {
        NodeId::R(number) => {
            if u32::from(number) < sizes.rms {
                return lane_x(0, 0, u32::from(number));
            }
        }
        NodeId::L(number) => {
            if u32::from(number) < sizes.leaders {
                return lane_x(sizes.rms, 0, u32::from(number));
            }
        }
        NodeId::A(number) => {
            if u32::from(number) < sizes.acceptors {
                return lane_x(sizes.rms, sizes.leaders, u32::from(number));
            }
        }
    }
    BESIDE
}

/// How broad the picture of a cluster is: where there are several transactions, their names have room.
pub(crate) fn picture_width(sizes: Sizes, several: bool) -> u64
    ensures { result ≡ picture_width sizes several }
{
    let last = lane_x(sizes.rms, sizes.leaders, sizes.acceptors);
    if several {
        return (last + NAME_WIDTH).max(LEAST_WIDTH);
    }
    last.max(LEAST_WIDTH)
}
