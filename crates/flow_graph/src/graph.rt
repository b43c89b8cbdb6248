//! The graph of a program.
ghost use Rattle.std.specs.Prelude.{◌≡◌, ◌<◌, ◌≤◌, ◌+◌, ◌↔◌, ℕ, IfOk, IfSome, Some, length, map, slice_get};
ghost use Rattle.std.specs.Option.{option_and_then, option_map};
ghost use Rattle.csub_objects.specs.Types.{Name};
ghost use Rattle.csub_semantics.specs.Types.{global_tree};
ghost use Rattle.csub_semantics.specs.Globals.{named_globals};
ghost use Rattle.csub_semantics.specs.Labels.{label_tree};
ghost use Rattle.csub_semantics.specs.Points.{entry, exit, point_tree, exit_tree};
ghost use Rattle.csub_semantics.specs.Syntax.{ProgramTree, program_tree};
ghost use Rattle.csub_semantics.specs.Flows.{PlacedNode, Edge, point_list, edge_list, flow_of, function_of};
ghost use Rattle.csub_semantics.specs.Numbers.{Site, site, site_at, edge_at as edge_at', name_at};
ghost use Rattle.flow_graph.specs.Graph.{IsGraphOf, HasProgram, point_count, edge_count, function_count, way_count_at, source_at};

use crate::build::{Listed, copy_globals, list_points};
use crate::case_table::list_cases;
use crate::edges::{EdgeNumbers, number_edges};
use crate::names::list_names;
use crate::node::{GraphFunction, GraphPoint};
use crate::search::find_exit;
use csub_core::Program;
use csub_semantics::{ExitLabel, GlobalVar, Label, Point, Span, Text};
use std::alloc::{AllocError, Global};
use std::collections::BTreeMap;
use std::marker::Model;
use std::ops::Range;

/// The graph of a program: its points and edges, numbered from 0, and its objects of file scope. Points are numbered function by function, and in a
/// function the entry, the points of the body in the order of the text, and the exit; edges by their source points and
/// then in order, a `Default` last; functions in the program's order, `#start` first. Beside them stand two ordered maps,
/// by which the way out by a case and the function with a name are found.
pub struct Graph {
    functions: Vec<GraphFunction>,
    points: Vec<GraphPoint>,
    firsts: Vec<u32>,
    sources: Vec<u32>,
    cases: BTreeMap<(u32, i64), u32>,
    names: BTreeMap<Text, u32>,
    globals: Vec<GlobalVar>,
}

impl Drop for Graph {
    fn drop(self) {
        let Graph {
            functions: _,
            points: _,
            firsts: _,
            sources: _,
            cases: _,
            names: _,
            globals: _,
        } = self;
    }
}

impl Model for Graph {
    ghost use Rattle.std.specs.Prelude.{◌≡◌};
    ghost use Rattle.std.specs.Coded.{codes};
    ghost use Rattle.csub_objects.specs.Codes.{type_code, members_code};
    ghost use Rattle.csub_semantics.specs.contracts.expression.Place as place;
    ghost use Rattle.csub_semantics.specs.contracts.expression.RExpr as expr;
    ghost use Rattle.csub_semantics.specs.contracts.label.RInit as init;
    ghost use Rattle.flow_graph.specs.Cases.{AreEntered};
    ghost use Rattle.flow_graph.specs.Names.{AreNamed};
    ghost use Rattle.flow_graph.specs.Graph.{Tables, IsClosed, HasProgram, firsts_of, sources_of};

    ghost Value = { Tables };

    ghost coded = { Prim.hlevel (codes, type_code, members_code, place.the_row.coded, expr.the_row.coded, init.the_row.coded) };

    ghost view = { λ g. (g.functions.items, g.points.items, g.globals.items) };

    ghost invariant = { λ g. IsClosed (g.functions.items, g.points.items, g.globals.items) × (g.firsts.items ≡ firsts_of g.points.items 0) × (g.sources.items ≡ sources_of g.points.items 0) × AreEntered g.points.items g.cases × HasProgram (g.functions.items, g.points.items, g.globals.items) × AreNamed g.functions.items g.names };
}

/// An edge: its source point, its exit label and the point to which it leads.
#[derive(Clone, Copy)]
pub struct EdgeEnds<'a> {
    /// The number of the source point.
    pub from: u32,
    /// The exit label.
    pub exit: &'a ExitLabel,
    /// The number of the point to which it leads.
    pub to: u32,
}

/// A way out of a point: its edge, and the point to which it leads.
#[derive(Clone, Copy)]
pub struct WayOut {
    /// The number of the edge.
    pub edge: u32,
    /// The number of the point to which it leads.
    pub to: u32,
}

impl Graph {
    /// The graph of a program. An `Err` is want of memory. The work is in proportion to the labels, and to the
    /// statements and the points, each times the length of its path; and the cases and the functions are put into ordered
    /// maps.
    pub fn build(alloc: Global, program: &Program) -> Result<Graph, AllocError>
        ensures { IfOk result (λ graph. IsGraphOf graph (program_tree program.now)) }
    {
        let Listed { functions, points } = list_points(alloc, program.functions())?;
        let EdgeNumbers { firsts, sources } = number_edges(alloc, points.as_slice())?;
        let cases = list_cases(alloc, points.as_slice())?;
        let names = list_names(alloc, functions.as_slice())?;
        let globals = copy_globals(alloc, program.globals())?;
        Ok(Graph {
            functions,
            points,
            firsts,
            sources,
            cases,
            names,
            globals,
        })
    }

    /// How many points there are. A graph is that of a valid program.
    pub fn points(&self) -> u32
        ensures value { result ≡ point_count self.now }
        ensures listed { (P : ProgramTree) → IsGraphOf self.now P → result ≡ length (point_list P) }
        ensures valid { HasProgram self.now }
    {
        self.points.len() as u32
    }

    /// How many edges there are.
    pub fn edges(&self) -> u32
        ensures value { result ≡ edge_count self.now }
        ensures listed { (P : ProgramTree) → IsGraphOf self.now P → result ≡ length (edge_list P) }
    {
        self.sources.len() as u32
    }

    /// The number of a function's entry.
    pub fn start_of(&self, function: u32) -> u32
        requires { function < function_count self.now }
        ensures start { (P : ProgramTree) (f : Name) → IsGraphOf self.now P → name_at P function ≡ Some f → site_at P result ≡ Some (site f entry) }
        ensures within { result < point_count self.now }
    {
        self.functions[function as usize].start
    }

    /// The number of a function's exit.
    pub fn exit_of(&self, function: u32) -> u32
        requires { function < function_count self.now }
        ensures exit { (P : ProgramTree) (f : Name) → IsGraphOf self.now P → name_at P function ≡ Some f → site_at P result ≡ Some (site f exit) }
        ensures within { result < point_count self.now }
    {
        self.functions[function as usize].exit
    }

    /// The number of a point's function.
    pub fn function_at(&self, point: u32) -> u32
        requires { point < point_count self.now }
        ensures function { (P : ProgramTree) (s : Site) → IsGraphOf self.now P → site_at P point ≡ Some s → name_at P result ≡ Some s.function }
        ensures within { result < function_count self.now }
    {
        self.points[point as usize].function
    }

    /// The point with a number.
    pub fn point_at(&self, point: u32) -> &Point
        requires { point < point_count self.now }
        ensures { (P : ProgramTree) (s : Site) → IsGraphOf self.now P → site_at P point ≡ Some s → point_tree result.now ≡ s.point }
    {
        &self.points[point as usize].node.point
    }

    /// The objects of file scope, in the program's order.
    pub fn globals(&self) -> &[GlobalVar]
        ensures value { result.now ≡ self.now.2 }
        ensures listed { (P : ProgramTree) → IsGraphOf self.now P → map global_tree result.now ≡ P.globals }
    {
        self.globals.as_slice()
    }

    /// What is done at a point: the tree of its label. Beside it a label has the globals that the tree names.
    pub fn label_at(&self, point: u32) -> &Label
        requires { point < point_count self.now }
        ensures { (P : ProgramTree) (s : Site) → IsGraphOf self.now P → site_at P point ≡ Some s → (flow_of P).label s.function s.point ≡ Some (record { tree = label_tree result.now; globals = named_globals P.globals (label_tree result.now) }) }
    {
        &self.points[point as usize].node.label
    }

    /// The place in the source that is named for a point.
    pub fn span_at(&self, point: u32) -> Span
        requires { point < point_count self.now }
        ensures { (P : ProgramTree) (n : PlacedNode) → IsGraphOf self.now P → slice_get (point_list P) point ≡ Some n → result ≡ n.node.span }
    {
        self.points[point as usize].node.span
    }

    /// The name of a function.
    pub fn name_of(&self, function: u32) -> &Text
        requires { function < function_count self.now }
        ensures { (P : ProgramTree) → IsGraphOf self.now P → name_at P function ≡ Some result.now }
    {
        &self.functions[function as usize].name
    }

    /// The number of the function with a name; `None` exactly where no function has it. It is found by a logarithm of the
    /// functions.
    pub fn find(&self, name: &Text) -> Option<u32>
        ensures found { (P : ProgramTree) → IsGraphOf self.now P → option_and_then (name_at P) result ≡ option_map (λ g. g.name) (function_of P name.now) }
        ensures within { IfSome result (λ f. f < function_count self.now) }
    {
        let function = self.names.get(name)?;
        Some(*function)
    }

    /// The edge that leaves a point by an exit label, and the point to which it leads; `None` exactly where the point has no
    /// such label. A case is found by a logarithm of the cases of the program, any other label one by one: a point without
    /// cases has at most two ways out.
    pub fn way_out(&self, point: u32, exit: &ExitLabel) -> Option<WayOut>
        requires { point < point_count self.now }
        ensures leads { (P : ProgramTree) (s : Site) → IsGraphOf self.now P → site_at P point ≡ Some s → option_and_then (site_at P) (option_map (λ w. w.to) result) ≡ option_map (site s.function) ((flow_of P).succ s.function s.point (exit_tree exit.now)) }
        ensures number { (P : ProgramTree) (s : Site) → IsGraphOf self.now P → site_at P point ≡ Some s → option_and_then (edge_at' P) (option_map (λ w. w.edge) result) ≡ option_map (λ q. record { function = s.function; from = s.point; exit = exit_tree exit.now }) ((flow_of P).succ s.function s.point (exit_tree exit.now)) }
        ensures to_within { IfSome result (λ w. w.to < point_count self.now) }
        ensures edge_within { IfSome result (λ w. w.edge < edge_count self.now) }
    {
        let ways = self.points[point as usize].node.ways.as_slice();
        let way = find_exit(ways, &self.cases, point, exit)?;
        Some(WayOut {
            edge: self.firsts[point as usize] + way as u32,
            to: ways[way].to,
        })
    }

    /// The point to which a way out of a point leads; `None` exactly where the point has no such exit label. It takes what
    /// [`Graph::way_out`] takes.
    pub fn follow(&self, point: u32, exit: &ExitLabel) -> Option<u32>
        requires { point < point_count self.now }
        ensures leads { (P : ProgramTree) (s : Site) → IsGraphOf self.now P → site_at P point ≡ Some s → option_and_then (site_at P) result ≡ option_map (site s.function) ((flow_of P).succ s.function s.point (exit_tree exit.now)) }
        ensures within { IfSome result (λ q. q < point_count self.now) }
    {
        Some(self.way_out(point, exit)?.to)
    }

    /// The number of the edge that leaves a point by an exit label; `None` exactly where the point has no such label. It
    /// takes what [`Graph::way_out`] takes.
    pub fn edge_number(&self, point: u32, exit: &ExitLabel) -> Option<u32>
        requires { point < point_count self.now }
        ensures number { (P : ProgramTree) (s : Site) → IsGraphOf self.now P → site_at P point ≡ Some s → option_and_then (edge_at' P) result ≡ option_map (λ q. record { function = s.function; from = s.point; exit = exit_tree exit.now }) ((flow_of P).succ s.function s.point (exit_tree exit.now)) }
        ensures within { IfSome result (λ e. e < edge_count self.now) }
    {
        Some(self.way_out(point, exit)?.edge)
    }

    /// The numbers of the edges that leave a point, which follow one another; none where the point has no way out. It
    /// looks at no edge.
    pub fn edges_of(&self, point: u32) -> Range<u32>
        requires { point < point_count self.now }
        ensures edges { (P : ProgramTree) (s : Site) (e : ℕ) → IsGraphOf self.now P → site_at P point ≡ Some s → ((result.start ≤ e) × (e < result.end)) ↔ (source_at P e ≡ Some s) }
        ensures count { result.end ≡ result.start + way_count_at self.now point }
        ensures within { (result.start ≤ result.end) × (result.end ≤ edge_count self.now) }
    {
        let start = self.firsts[point as usize];
        let count = self.points[point as usize].node.ways.len() as u32;
        start..start + count
    }

    /// The edge with a number.
    pub fn edge_at(&self, edge: u32) -> EdgeEnds<'_>
        requires { edge < edge_count self.now }
        ensures from { (P : ProgramTree) (e : Edge) → IsGraphOf self.now P → edge_at' P edge ≡ Some e → site_at P result.from ≡ Some (site e.function e.from) }
        ensures exit { (P : ProgramTree) (e : Edge) → IsGraphOf self.now P → edge_at' P edge ≡ Some e → exit_tree result.exit.now ≡ e.exit }
        ensures to { (P : ProgramTree) (e : Edge) → IsGraphOf self.now P → edge_at' P edge ≡ Some e → site_at P result.to ≡ option_map (site e.function) ((flow_of P).succ e.function e.from e.exit) }
        ensures from_within { result.from < point_count self.now }
        ensures to_within { result.to < point_count self.now }
    {
        let from = self.sources[edge as usize];
        let way = &self.points[from as usize].node.ways[(edge
            - self.firsts[from as usize]) as usize];
        EdgeEnds {
            from,
            exit: &way.exit,
            to: way.to,
        }
    }
}
