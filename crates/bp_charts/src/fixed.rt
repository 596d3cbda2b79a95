//! The parts of a picture that never change. Lengths are in tenths of a pixel.

/// The head of the picture: its styles, and the fixed parts of both axes.
pub(crate) const HEAD: &str = "\
<svg xmlns='http://www.w3.org/2000/svg' viewBox='0 0 9400 5200' width='940' height='520' role='img'>
<title>Hit ratio over frames</title>
<style>
svg{font:130px sans-serif;fill:none;stroke:none}
text{fill:#222;stroke:none}
g{stroke-width:26;stroke-linejoin:round}
circle{fill:#fff;stroke-dasharray:none}
.back{fill:#fff}
.grid{stroke:#d4d4d4;stroke-width:10;shape-rendering:crispEdges}
.axis{stroke:#222;stroke-width:14;shape-rendering:crispEdges}
.left{text-anchor:end}
.middle{text-anchor:middle}
.large{font-size:170px}
.small{font-size:110px}
.c0{stroke:#0072b2}
.c1{stroke:#d55e00}
.c2{stroke:#009e73}
.c3{stroke:#aa4499}
.c4{stroke:#b8860b}
.c5{stroke:#56b4e9}
.d1{stroke-dasharray:140 60}
.d2{stroke-dasharray:40 45}
.d3{stroke-dasharray:140 50 30 50}
.d4{stroke-dasharray:260 80}
.optimum{stroke:#000;stroke-width:34}
</style>
<rect class='back' width='9400' height='5200'/>
<text class='middle large' x='4000' y='230'>Hit ratio over frames</text>
<text class='middle' transform='translate(280 2400) rotate(-90)'>hit ratio (hits / fixes)</text>
<text class='middle' x='4000' y='4930'>frames (pages that memory holds), doubling from line to line</text>
";
