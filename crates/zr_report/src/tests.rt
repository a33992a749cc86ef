use super::*;
use std::alloc::Global;
use std::process::Abort;
use std::test::Fail;
use zr_asked::{Asked, AskedLp, Move, Step, Stuck};
use zr_base::{Frac, Point, Wide};
use zr_cert::{Cert, Verdict};
use zr_game::{Choice, Kind, Named};
use zr_tree::{Node, Tree};

const BEST: &str = "zero-best/1\nleast 0 -1 5\nleaf 1 2 2 1 4 1\nbelow 1 2 1 -1 0 1\nend\n";

fn one_leaf(alloc: Global, scale: i128) -> Result<Tree, Fail> {
    let leaf = Node::Leaf {
        scale,
        mult: vec![in alloc; (2, 1), (4, 1)]?,
    };
    Tree::new(vec![in alloc; leaf]?).map_err(|_| Fail::from("no tree"))
}

fn point(num: Vec<i128>, den: i128) -> Result<Point, Fail> {
    Point::new(num, den).map_err(|_| Fail::from("no point"))
}

#[test]
fn answers_are_written(rt: HostRuntime) -> Result<(), Fail> {
    let alloc = rt.alloc();
    let Some(cost) = Frac::new(-1, 5) else {
        return Err(Fail::from("no fraction"));
    };
    let first = Answer::Least {
        cost,
        tree: one_leaf(alloc, 1)?,
    };
    let second = Answer::Below {
        base: point(vec![in alloc; 1, -1]?, 2)?,
        dir: vec![in alloc; 0, 1]?,
    };
    let answers = vec![in alloc; first, second]?;
    let text = write_best(alloc, &answers).map_err(|_| Fail::from("no memory"))?;
    assert_eq!(rt; text.as_slice(), BEST.as_bytes());
    Ok(())
}

fn wide() -> Wide {
    Wide {
        left: (-1, 0),
        right: (3, 4),
    }
}

/// A branch's question that is stuck.
fn branch(alloc: Global) -> Result<End, Fail> {
    let path = vec![in alloc;
        Move::Low { var: 0, at: -2 },
        Move::High { var: 1, at: 3 },
        Move::VarZero { pair: 0 },
        Move::RowZero { pair: 1 },
    ]?;
    let stuck = Stuck {
        basis: vec![in alloc; 2, 4]?,
        step: Step::Pivot {
            row: 0,
            col: 1,
            at_row: 1,
            at_col: 5,
        },
        wide: wide(),
    };
    let question = Asked::Branch {
        player: 1,
        path,
        aim: vec![in alloc; 5, -6]?,
    };
    Ok(End::Stuck(AskedLp { question, stuck }))
}

const BRANCH: &str = "stop wide\nquestion branch 1\npath split 0 -2 low\npath split 1 3 high\n\
path choose 0 var\npath choose 1 row\naim 5 -6\nbasis 2 4\nstep pivot 0 1 1 5\nnumbers -1 0 3 4\n";

/// A question of choices of three columns and a row that is stuck at a step.
fn choices(alloc: Global, step: Step) -> Result<End, Fail> {
    let path = vec![in alloc;
        Choice::On { player: 0, leaf: 1 },
        Choice::Off { player: 1, leaf: 0 },
        Choice::Zero {
            player: 0,
            leaf: 1,
            slot: 2
        },
        Choice::Tight {
            player: 0,
            leaf: 1,
            slot: 3
        },
        Choice::Which { player: 1, leaf: 2 },
    ]?;
    let stuck = Stuck {
        basis: vec![in alloc; 0, 4]?,
        step,
        wide: wide(),
    };
    let question = Asked::Choices { path };
    Ok(End::Stuck(AskedLp { question, stuck }))
}

const CHOICES: &str = "stop wide\nquestion choices\npath on 0 1\npath off 1 0\npath zero 0 1 2\n\
path tight 0 1 3\npath which 1 2\naim 0 0 -1\nbasis 0 4\n";

fn is_written(rt: &impl Abort, alloc: Global, end: &End, lines: &[&str]) -> Result<(), Fail> {
    let mut wanted = String::from_str(alloc, "zero-report/1\n")?;
    for line in lines {
        wanted.push_str(line)?;
    }
    wanted.push_str("end\n")?;
    let text = write_report(alloc, end).map_err(|_| Fail::from("no memory"))?;
    assert_eq!(rt; text.as_slice(), wanted.as_bytes());
    Ok(())
}

#[test]
fn stops_are_written(rt: HostRuntime) -> Result<(), Fail> {
    let alloc = rt.alloc();
    let items = vec![in alloc;
        Named::Point(point(vec![in alloc; 0]?, 1)?),
        Named::Ray {
            base: point(vec![in alloc; 0]?, 1)?,
            dir: vec![in alloc; 1]?
        },
    ]?;
    let open = End::Open {
        player: 0,
        var: 0,
        dir: vec![in alloc; 1]?,
        named: vec![in alloc; items]?,
    };
    let verdict = Verdict::NoneEmpty {
        player: 0,
        tree: one_leaf(alloc, 0)?,
    };
    let cert = Cert::new(Kind::Mixed, 1, verdict).map_err(|_| Fail::from("no certificate"))?;
    for (end, lines) in [
        (End::Budget { limit: 1 }, "stop budget 1\n"),
        (End::Step(wide()), "stop step -1 0 3 4\n"),
        (open, "stop open 0 0 1\nnamed 2\npoint 1 0\nray 1 0 1\n"),
        (End::Large { cells: 327_782_408 }, "stop large 327782408\n"),
        (End::Long { bytes: 67_108_865 }, "stop long 67108865\n"),
        (
            End::Certificate { line: 4, cert },
            "stop certificate 4\nzero-cert/1\nkind mixed 1\nverdict none empty 0\nleaf 0 2 2 1 4 1\nend\n",
        ),
    ] {
        is_written(&rt, alloc, &end, &[lines])?;
    }
    Ok(())
}

#[test]
fn questions_are_written(rt: HostRuntime) -> Result<(), Fail> {
    let alloc = rt.alloc();
    is_written(&rt, alloc, &branch(alloc)?, &[BRANCH])?;
    let at_point = choices(alloc, Step::Point { row: 0 })?;
    is_written(
        &rt,
        alloc,
        &at_point,
        &[CHOICES, "step point 0\nnumbers -1 0 3 4\n"],
    )?;
    let at_ray = choices(alloc, Step::Ray { row: 1, col: 2 })?;
    is_written(
        &rt,
        alloc,
        &at_ray,
        &[CHOICES, "step ray 1 2\nnumbers -1 0 3 4\n"],
    )
}
