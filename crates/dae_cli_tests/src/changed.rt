//! What is answered for images of which one byte is changed.

/// Rows for the images that are named: the name, the first and the last of places in it, counted from 0, the status, and what is put
/// out and noted. At each of these places alone the lowest bit of the byte is turned, and the image is run for 400 steps at most.
pub const CHANGED: &str = "\
beside|0|3|8||image field magic 0`\n\
beside|4|7|8||image field version 4`\n\
beside|8|8|0||budget ld 0 al 0 sa 1 sd 1 ab 0 eb 0 cq 0`ended 7`steps 8`\n\
beside|9|9|4||budget ld 257 al 0 sa 1 sd 1 ab 0 eb 0 cq 0`depth ld needs 257 has 8`\n\
beside|10|11|8||image field ld 8`\n\
beside|12|12|0||budget ld 1 al 1 sa 1 sd 1 ab 0 eb 0 cq 0`ended 7`steps 8`\n\
beside|13|13|4||budget ld 1 al 256 sa 1 sd 1 ab 0 eb 0 cq 0`depth al needs 256 has 8`\n\
beside|14|15|8||image field al 12`\n\
beside|16|16|0||budget ld 1 al 0 sa 0 sd 1 ab 0 eb 0 cq 0`ended 7`steps 8`\n\
beside|17|17|4||budget ld 1 al 0 sa 257 sd 1 ab 0 eb 0 cq 0`depth sa needs 257 has 8`\n\
beside|18|19|8||image field sa 16`\n\
beside|20|20|0||budget ld 1 al 0 sa 1 sd 0 ab 0 eb 0 cq 0`ended 7`steps 8`\n\
beside|21|21|4||budget ld 1 al 0 sa 1 sd 257 ab 0 eb 0 cq 0`depth sd needs 257 has 8`\n\
beside|22|23|8||image field sd 20`\n\
beside|24|24|0||budget ld 1 al 0 sa 1 sd 1 ab 1 eb 0 cq 0`ended 7`steps 8`\n\
beside|25|25|4||budget ld 1 al 0 sa 1 sd 1 ab 256 eb 0 cq 0`depth ab needs 256 has 8`\n\
beside|26|27|8||image field ab 24`\n\
beside|28|28|0||budget ld 1 al 0 sa 1 sd 1 ab 0 eb 1 cq 0`ended 7`steps 8`\n\
beside|29|29|4||budget ld 1 al 0 sa 1 sd 1 ab 0 eb 256 cq 0`depth eb needs 256 has 8`\n\
beside|30|31|8||image field eb 28`\n\
beside|32|32|0||budget ld 1 al 0 sa 1 sd 1 ab 0 eb 0 cq 1`ended 7`steps 8`\n\
beside|33|33|4||budget ld 1 al 0 sa 1 sd 1 ab 0 eb 0 cq 256`depth cq needs 256 has 8`\n\
beside|34|35|8||image field cq 32`\n\
beside|36|36|8||image field memory 36`\n\
beside|37|38|0||budget ld 1 al 0 sa 1 sd 1 ab 0 eb 0 cq 0`ended 7`steps 8`\n\
beside|40|40|8||image field calls 40`\n\
beside|41|41|0||budget ld 1 al 0 sa 1 sd 1 ab 0 eb 0 cq 0`ended 7`steps 8`\n\
beside|42|43|8||image field calls 40`\n\
beside|44|44|8||image field private-a 44`\n\
beside|45|46|0||budget ld 1 al 0 sa 1 sd 1 ab 0 eb 0 cq 0`ended 7`steps 8`\n\
beside|48|48|8||image field private-e 48`\n\
beside|49|50|0||budget ld 1 al 0 sa 1 sd 1 ab 0 eb 0 cq 0`ended 7`steps 8`\n\
beside|52|52|8||image field entry-a 52`\n\
beside|53|55|8||image field words-a 60`\n\
beside|56|56|8||image field entry-e 56`\n\
beside|57|59|8||image field words-e 64`\n\
beside|60|60|8||image trailing 108`\n\
beside|61|63|8||image short 112`\n\
beside|64|64|8||image trailing 108`\n\
beside|65|68|8||image short 112`\n\
beside|69|71|8||image field data-length 68`\n\
beside|72|74|8||image short 112`\n\
beside|75|75|8||image field line-count 72`\n\
beside|76|77|8||image short 112`\n\
beside|78|79|8||image field name-count 76`\n\
beside|80|80|9||budget ld 1 al 0 sa 1 sd 1 ab 0 eb 0 cq 0`stuck A fault illegal, E waits ld`steps 0`\n\
beside|81|81|9||budget ld 1 al 0 sa 1 sd 1 ab 0 eb 0 cq 0`stuck A fault shared, E waits ld`steps 0`\n\
beside|82|82|0||budget ld 1 al 0 sa 1 sd 1 ab 0 eb 0 cq 0`ended 7`steps 8`\n\
beside|83|83|9||budget ld 1 al 0 sa 1 sd 1 ab 0 eb 0 cq 0`stuck A fault private, E waits ld`steps 0`\n\
beside|84|85|9||budget ld 1 al 0 sa 1 sd 1 ab 0 eb 0 cq 0`stuck A fault illegal, E waits ld`steps 1`\n\
beside|86|86|0||budget ld 1 al 0 sa 1 sd 1 ab 0 eb 0 cq 0`ended 7`steps 8`\n\
beside|87|87|9||budget ld 1 al 0 sa 1 sd 1 ab 0 eb 0 cq 0`stuck A fault shared, E waits ld`steps 1`\n\
beside|88|91|9||budget ld 1 al 0 sa 1 sd 1 ab 0 eb 0 cq 0`stuck A fault illegal, E halted`steps 7`\n\
beside|92|92|9||budget ld 1 al 0 sa 1 sd 1 ab 0 eb 0 cq 0`stuck A halted, E fault illegal`steps 4`\n\
beside|93|93|0||budget ld 1 al 0 sa 1 sd 1 ab 0 eb 0 cq 0`ended 0`steps 8`\n\
beside|94|94|9||budget ld 1 al 0 sa 1 sd 1 ab 0 eb 0 cq 0`stuck A halted, E fault illegal`steps 4`\n\
beside|95|95|0||budget ld 1 al 0 sa 1 sd 1 ab 0 eb 0 cq 0`ended 23`steps 8`\n\
beside|96|97|9||budget ld 1 al 0 sa 1 sd 1 ab 0 eb 0 cq 0`stuck A halted, E fault illegal`steps 5`\n\
beside|98|99|0||budget ld 1 al 0 sa 1 sd 1 ab 0 eb 0 cq 0`ended 7`steps 8`\n\
beside|100|103|9||budget ld 1 al 0 sa 1 sd 1 ab 0 eb 0 cq 0`stuck A halted, E fault illegal`steps 7`\n\
beside|104|107|0||budget ld 1 al 0 sa 1 sd 1 ab 0 eb 0 cq 0`ended 7`steps 8`\n\
beside|108|108|0||budget ld 1 al 0 sa 1 sd 1 ab 0 eb 0 cq 0`ended 6`steps 8`\n\
beside|109|109|0||budget ld 1 al 0 sa 1 sd 1 ab 0 eb 0 cq 0`ended 263`steps 8`\n\
beside|110|110|0||budget ld 1 al 0 sa 1 sd 1 ab 0 eb 0 cq 0`ended 65543`steps 8`\n\
beside|111|111|0||budget ld 1 al 0 sa 1 sd 1 ab 0 eb 0 cq 0`ended 16777223`steps 8`\n\
there|0|3|8||image field magic 0`\n\
there|4|7|8||image field version 4`\n\
there|8|8|9||budget ld 0 al 0 sa 1 sd 1 ab 0 eb 0 cq 0`stuck A halted, E waits ld`steps 3`\n\
there|9|9|4||budget ld 257 al 0 sa 1 sd 1 ab 0 eb 0 cq 0`depth ld needs 257 has 8`\n\
there|10|11|8||image field ld 8`\n\
there|12|12|9||budget ld 1 al 1 sa 1 sd 1 ab 0 eb 0 cq 0`stuck A halted, E waits ld`steps 3`\n\
there|13|13|4||budget ld 1 al 256 sa 1 sd 1 ab 0 eb 0 cq 0`depth al needs 256 has 8`\n\
there|14|15|8||image field al 12`\n\
there|16|16|9||budget ld 1 al 0 sa 0 sd 1 ab 0 eb 0 cq 0`stuck A halted, E waits ld`steps 3`\n\
there|17|17|4||budget ld 1 al 0 sa 257 sd 1 ab 0 eb 0 cq 0`depth sa needs 257 has 8`\n\
there|18|19|8||image field sa 16`\n\
there|20|20|9||budget ld 1 al 0 sa 1 sd 0 ab 0 eb 0 cq 0`stuck A halted, E waits ld`steps 3`\n\
there|21|21|4||budget ld 1 al 0 sa 1 sd 257 ab 0 eb 0 cq 0`depth sd needs 257 has 8`\n\
there|22|23|8||image field sd 20`\n\
there|24|24|9||budget ld 1 al 0 sa 1 sd 1 ab 1 eb 0 cq 0`stuck A halted, E waits ld`steps 3`\n\
there|25|25|4||budget ld 1 al 0 sa 1 sd 1 ab 256 eb 0 cq 0`depth ab needs 256 has 8`\n\
there|26|27|8||image field ab 24`\n\
there|28|28|9||budget ld 1 al 0 sa 1 sd 1 ab 0 eb 1 cq 0`stuck A halted, E waits ld`steps 3`\n\
there|29|29|4||budget ld 1 al 0 sa 1 sd 1 ab 0 eb 256 cq 0`depth eb needs 256 has 8`\n\
there|30|31|8||image field eb 28`\n\
there|32|32|9||budget ld 1 al 0 sa 1 sd 1 ab 0 eb 0 cq 1`stuck A halted, E waits ld`steps 3`\n\
there|33|33|4||budget ld 1 al 0 sa 1 sd 1 ab 0 eb 0 cq 256`depth cq needs 256 has 8`\n\
there|34|35|8||image field cq 32`\n\
there|36|36|8||image field memory 36`\n\
there|37|38|9||budget ld 1 al 0 sa 1 sd 1 ab 0 eb 0 cq 0`stuck A halted, E waits ld`steps 3`\n\
there|40|40|8||image field calls 40`\n\
there|41|41|9||budget ld 1 al 0 sa 1 sd 1 ab 0 eb 0 cq 0`stuck A halted, E waits ld`steps 3`\n\
there|42|43|8||image field calls 40`\n\
there|44|44|8||image field private-a 44`\n\
there|45|46|9||budget ld 1 al 0 sa 1 sd 1 ab 0 eb 0 cq 0`stuck A halted, E waits ld`steps 3`\n\
there|48|48|8||image field private-e 48`\n\
there|49|50|9||budget ld 1 al 0 sa 1 sd 1 ab 0 eb 0 cq 0`stuck A halted, E waits ld`steps 3`\n\
there|52|52|8||image field entry-a 52`\n\
there|53|55|8||image field words-a 60`\n\
there|56|56|8||image field entry-e 56`\n\
there|57|59|8||image field words-e 64`\n\
there|60|60|8||image trailing 108`\n\
there|61|63|8||image short 112`\n\
there|64|64|8||image trailing 108`\n\
there|65|68|8||image short 112`\n\
there|69|71|8||image field data-length 68`\n\
there|72|74|8||image short 112`\n\
there|75|75|8||image field line-count 72`\n\
there|76|77|8||image short 112`\n\
there|78|79|8||image field name-count 76`\n\
there|80|80|9||budget ld 1 al 0 sa 1 sd 1 ab 0 eb 0 cq 0`stuck A fault illegal, E waits ld`steps 0`\n\
there|81|81|9||budget ld 1 al 0 sa 1 sd 1 ab 0 eb 0 cq 0`stuck A fault shared, E waits ld`steps 0`\n\
there|82|82|9||budget ld 1 al 0 sa 1 sd 1 ab 0 eb 0 cq 0`stuck A halted, E waits ld`steps 3`\n\
there|83|83|9||budget ld 1 al 0 sa 1 sd 1 ab 0 eb 0 cq 0`stuck A fault private, E waits ld`steps 0`\n\
there|84|85|9||budget ld 1 al 0 sa 1 sd 1 ab 0 eb 0 cq 0`stuck A fault illegal, E waits ld`steps 1`\n\
there|86|86|9||budget ld 1 al 0 sa 1 sd 1 ab 0 eb 0 cq 0`stuck A halted, E waits ld`steps 3`\n\
there|87|87|9||budget ld 1 al 0 sa 1 sd 1 ab 0 eb 0 cq 0`stuck A fault shared, E waits ld`steps 1`\n\
there|88|91|9||budget ld 1 al 0 sa 1 sd 1 ab 0 eb 0 cq 0`stuck A fault illegal, E waits ld`steps 2`\n\
there|92|92|9||budget ld 1 al 0 sa 1 sd 1 ab 0 eb 0 cq 0`stuck A halted, E fault illegal`steps 3`\n\
there|93|93|9||budget ld 1 al 0 sa 1 sd 1 ab 0 eb 0 cq 0`stuck A halted, E waits ld`steps 3`\n\
there|94|94|9||budget ld 1 al 0 sa 1 sd 1 ab 0 eb 0 cq 0`stuck A halted, E fault illegal`steps 3`\n\
there|95|111|9||budget ld 1 al 0 sa 1 sd 1 ab 0 eb 0 cq 0`stuck A halted, E waits ld`steps 3`\n\
prints|0|3|8||image field magic 0`\n\
prints|4|7|8||image field version 4`\n\
prints|8|8|0|11`22`33`44`|budget ld 1 al 0 sa 0 sd 0 ab 0 eb 0 cq 0`ended 5`steps 28`\n\
prints|9|9|4||budget ld 256 al 0 sa 0 sd 0 ab 0 eb 0 cq 0`depth ld needs 256 has 8`\n\
prints|10|11|8||image field ld 8`\n\
prints|12|12|0|11`22`33`44`|budget ld 0 al 1 sa 0 sd 0 ab 0 eb 0 cq 0`ended 5`steps 28`\n\
prints|13|13|4||budget ld 0 al 256 sa 0 sd 0 ab 0 eb 0 cq 0`depth al needs 256 has 8`\n\
prints|14|15|8||image field al 12`\n\
prints|16|16|0|11`22`33`44`|budget ld 0 al 0 sa 1 sd 0 ab 0 eb 0 cq 0`ended 5`steps 28`\n\
prints|17|17|4||budget ld 0 al 0 sa 256 sd 0 ab 0 eb 0 cq 0`depth sa needs 256 has 8`\n\
prints|18|19|8||image field sa 16`\n\
prints|20|20|0|11`22`33`44`|budget ld 0 al 0 sa 0 sd 1 ab 0 eb 0 cq 0`ended 5`steps 28`\n\
prints|21|21|4||budget ld 0 al 0 sa 0 sd 256 ab 0 eb 0 cq 0`depth sd needs 256 has 8`\n\
prints|22|23|8||image field sd 20`\n\
prints|24|24|0|11`22`33`44`|budget ld 0 al 0 sa 0 sd 0 ab 1 eb 0 cq 0`ended 5`steps 28`\n\
prints|25|25|4||budget ld 0 al 0 sa 0 sd 0 ab 256 eb 0 cq 0`depth ab needs 256 has 8`\n\
prints|26|27|8||image field ab 24`\n\
prints|28|28|0|11`22`33`44`|budget ld 0 al 0 sa 0 sd 0 ab 0 eb 1 cq 0`ended 5`steps 28`\n\
prints|29|29|4||budget ld 0 al 0 sa 0 sd 0 ab 0 eb 256 cq 0`depth eb needs 256 has 8`\n\
prints|30|31|8||image field eb 28`\n\
prints|32|32|0|11`22`33`44`|budget ld 0 al 0 sa 0 sd 0 ab 0 eb 0 cq 1`ended 5`steps 28`\n\
prints|33|33|4||budget ld 0 al 0 sa 0 sd 0 ab 0 eb 0 cq 256`depth cq needs 256 has 8`\n\
prints|34|35|8||image field cq 32`\n\
prints|36|36|8||image field memory 36`\n\
prints|37|38|0|11`22`33`44`|budget ld 0 al 0 sa 0 sd 0 ab 0 eb 0 cq 0`ended 5`steps 28`\n\
prints|40|40|8||image field calls 40`\n\
prints|41|41|0|11`22`33`44`|budget ld 0 al 0 sa 0 sd 0 ab 0 eb 0 cq 0`ended 5`steps 28`\n\
prints|42|43|8||image field calls 40`\n\
prints|44|44|8||image field private-a 44`\n\
prints|45|46|0|11`22`33`44`|budget ld 0 al 0 sa 0 sd 0 ab 0 eb 0 cq 0`ended 5`steps 28`\n\
prints|48|48|8||image field private-e 48`\n\
prints|49|50|0|11`22`33`44`|budget ld 0 al 0 sa 0 sd 0 ab 0 eb 0 cq 0`ended 5`steps 28`\n\
prints|52|52|8||image field entry-a 52`\n\
prints|53|55|8||image field words-a 60`\n\
prints|56|56|8||image field entry-e 56`\n\
prints|57|59|8||image field words-e 64`\n\
prints|60|60|8||image field words-a 60`\n\
prints|61|63|8||image short 192`\n\
prints|64|64|8||image trailing 188`\n\
prints|65|68|8||image short 192`\n\
prints|69|71|8||image field data-length 68`\n\
prints|72|74|8||image short 192`\n\
prints|75|75|8||image field line-count 72`\n\
prints|76|77|8||image short 192`\n\
prints|78|79|8||image field name-count 76`\n\
prints|80|83|9|11`22`33`44`|budget ld 0 al 0 sa 0 sd 0 ab 0 eb 0 cq 0`stuck A fault illegal, E halted`steps 27`\n\
prints|84|84|9||budget ld 0 al 0 sa 0 sd 0 ab 0 eb 0 cq 0`stuck A halted, E fault illegal`steps 1`\n\
prints|85|85|0|0`22`33`44`|budget ld 0 al 0 sa 0 sd 0 ab 0 eb 0 cq 0`ended 5`steps 28`\n\
prints|86|86|0|11`22`33`44`|budget ld 0 al 0 sa 0 sd 0 ab 0 eb 0 cq 0`ended 5`steps 28`\n\
prints|87|87|0|27`22`33`44`|budget ld 0 al 0 sa 0 sd 0 ab 0 eb 0 cq 0`ended 5`steps 28`\n\
prints|88|88|9||budget ld 0 al 0 sa 0 sd 0 ab 0 eb 0 cq 0`stuck A halted, E fault illegal`steps 2`\n\
prints|89|89|0||budget ld 0 al 0 sa 0 sd 0 ab 0 eb 0 cq 0`ended 11`steps 4`\n\
prints|90|90|0|11`22`33`44`|budget ld 0 al 0 sa 0 sd 0 ab 0 eb 0 cq 0`ended 5`steps 28`\n\
prints|91|91|9||budget ld 0 al 0 sa 0 sd 0 ab 0 eb 0 cq 0`stuck A halted, E fault call`steps 3`\n\
prints|92|95|9||budget ld 0 al 0 sa 0 sd 0 ab 0 eb 0 cq 0`stuck A halted, E fault illegal`steps 3`\n\
prints|96|96|9|11|budget ld 0 al 0 sa 0 sd 0 ab 0 eb 0 cq 0`stuck A halted, E fault illegal`steps 4`\n\
prints|97|97|0|11\x0b22`33`44`|budget ld 0 al 0 sa 0 sd 0 ab 0 eb 0 cq 0`ended 5`steps 28`\n\
prints|98|98|0|11`22`33`44`|budget ld 0 al 0 sa 0 sd 0 ab 0 eb 0 cq 0`ended 5`steps 28`\n\
prints|99|99|0|11\x1a22`33`44`|budget ld 0 al 0 sa 0 sd 0 ab 0 eb 0 cq 0`ended 5`steps 28`\n\
prints|100|100|9|11|budget ld 0 al 0 sa 0 sd 0 ab 0 eb 0 cq 0`stuck A halted, E fault illegal`steps 5`\n\
prints|101|101|0|111022`33`44`|budget ld 0 al 0 sa 0 sd 0 ab 0 eb 0 cq 0`ended 5`steps 28`\n\
prints|102|102|0|11`22`33`44`|budget ld 0 al 0 sa 0 sd 0 ab 0 eb 0 cq 0`ended 5`steps 28`\n\
prints|103|103|9|11|budget ld 0 al 0 sa 0 sd 0 ab 0 eb 0 cq 0`stuck A halted, E fault call`steps 6`\n\
prints|104|107|9|11|budget ld 0 al 0 sa 0 sd 0 ab 0 eb 0 cq 0`stuck A halted, E fault illegal`steps 6`\n\
prints|108|108|9|11`|budget ld 0 al 0 sa 0 sd 0 ab 0 eb 0 cq 0`stuck A halted, E fault illegal`steps 7`\n\
prints|109|109|0|11`10`33`44`|budget ld 0 al 0 sa 0 sd 0 ab 0 eb 0 cq 0`ended 5`steps 28`\n\
prints|110|110|0|11`22`33`44`|budget ld 0 al 0 sa 0 sd 0 ab 0 eb 0 cq 0`ended 5`steps 28`\n\
prints|111|111|0|11`6`33`44`|budget ld 0 al 0 sa 0 sd 0 ab 0 eb 0 cq 0`ended 5`steps 28`\n\
prints|112|112|9|11`|budget ld 0 al 0 sa 0 sd 0 ab 0 eb 0 cq 0`stuck A halted, E fault illegal`steps 8`\n\
prints|113|113|0|11`\x16`33`44`|budget ld 0 al 0 sa 0 sd 0 ab 0 eb 0 cq 0`ended 5`steps 28`\n\
prints|114|114|0|11`22`33`44`|budget ld 0 al 0 sa 0 sd 0 ab 0 eb 0 cq 0`ended 5`steps 28`\n\
prints|115|115|9|11`|budget ld 0 al 0 sa 0 sd 0 ab 0 eb 0 cq 0`stuck A halted, E fault call`steps 9`\n\
prints|116|119|9|11`|budget ld 0 al 0 sa 0 sd 0 ab 0 eb 0 cq 0`stuck A halted, E fault illegal`steps 9`\n\
prints|120|120|9|11`22|budget ld 0 al 0 sa 0 sd 0 ab 0 eb 0 cq 0`stuck A halted, E fault illegal`steps 10`\n\
prints|121|121|0|11`22\x1633`44`|budget ld 0 al 0 sa 0 sd 0 ab 0 eb 0 cq 0`ended 5`steps 28`\n\
prints|122|122|0|11`22`33`44`|budget ld 0 al 0 sa 0 sd 0 ab 0 eb 0 cq 0`ended 5`steps 28`\n\
prints|123|123|0|11`22\x1a33`44`|budget ld 0 al 0 sa 0 sd 0 ab 0 eb 0 cq 0`ended 5`steps 28`\n\
prints|124|124|9|11`22|budget ld 0 al 0 sa 0 sd 0 ab 0 eb 0 cq 0`stuck A halted, E fault illegal`steps 11`\n\
prints|125|125|0|11`221033`44`|budget ld 0 al 0 sa 0 sd 0 ab 0 eb 0 cq 0`ended 5`steps 28`\n\
prints|126|126|0|11`22`33`44`|budget ld 0 al 0 sa 0 sd 0 ab 0 eb 0 cq 0`ended 5`steps 28`\n\
prints|127|127|9|11`22|budget ld 0 al 0 sa 0 sd 0 ab 0 eb 0 cq 0`stuck A halted, E fault call`steps 12`\n\
prints|128|131|9|11`22|budget ld 0 al 0 sa 0 sd 0 ab 0 eb 0 cq 0`stuck A halted, E fault illegal`steps 12`\n\
prints|132|132|9|11`22`|budget ld 0 al 0 sa 0 sd 0 ab 0 eb 0 cq 0`stuck A halted, E fault illegal`steps 13`\n\
prints|133|133|0|11`22`10`44`|budget ld 0 al 0 sa 0 sd 0 ab 0 eb 0 cq 0`ended 5`steps 28`\n\
prints|134|134|0|11`22`33`44`|budget ld 0 al 0 sa 0 sd 0 ab 0 eb 0 cq 0`ended 5`steps 28`\n\
prints|135|135|0|11`22`49`44`|budget ld 0 al 0 sa 0 sd 0 ab 0 eb 0 cq 0`ended 5`steps 28`\n\
prints|136|136|9|11`22`|budget ld 0 al 0 sa 0 sd 0 ab 0 eb 0 cq 0`stuck A halted, E fault illegal`steps 14`\n\
prints|137|137|0|11`22`!`44`|budget ld 0 al 0 sa 0 sd 0 ab 0 eb 0 cq 0`ended 5`steps 28`\n\
prints|138|138|0|11`22`33`44`|budget ld 0 al 0 sa 0 sd 0 ab 0 eb 0 cq 0`ended 5`steps 28`\n\
prints|139|139|9|11`22`|budget ld 0 al 0 sa 0 sd 0 ab 0 eb 0 cq 0`stuck A halted, E fault call`steps 15`\n\
prints|140|143|9|11`22`|budget ld 0 al 0 sa 0 sd 0 ab 0 eb 0 cq 0`stuck A halted, E fault illegal`steps 15`\n\
prints|144|144|9|11`22`33|budget ld 0 al 0 sa 0 sd 0 ab 0 eb 0 cq 0`stuck A halted, E fault illegal`steps 16`\n\
prints|145|145|0|11`22`33!44`|budget ld 0 al 0 sa 0 sd 0 ab 0 eb 0 cq 0`ended 5`steps 28`\n\
prints|146|146|0|11`22`33`44`|budget ld 0 al 0 sa 0 sd 0 ab 0 eb 0 cq 0`ended 5`steps 28`\n\
prints|147|147|0|11`22`33\x1a44`|budget ld 0 al 0 sa 0 sd 0 ab 0 eb 0 cq 0`ended 5`steps 28`\n\
prints|148|148|9|11`22`33|budget ld 0 al 0 sa 0 sd 0 ab 0 eb 0 cq 0`stuck A halted, E fault illegal`steps 17`\n\
prints|149|149|0|11`22`331044`|budget ld 0 al 0 sa 0 sd 0 ab 0 eb 0 cq 0`ended 5`steps 28`\n\
prints|150|150|0|11`22`33`44`|budget ld 0 al 0 sa 0 sd 0 ab 0 eb 0 cq 0`ended 5`steps 28`\n\
prints|151|151|9|11`22`33|budget ld 0 al 0 sa 0 sd 0 ab 0 eb 0 cq 0`stuck A halted, E fault call`steps 18`\n\
prints|152|155|9|11`22`33|budget ld 0 al 0 sa 0 sd 0 ab 0 eb 0 cq 0`stuck A halted, E fault illegal`steps 18`\n\
prints|156|156|9|11`22`33`|budget ld 0 al 0 sa 0 sd 0 ab 0 eb 0 cq 0`stuck A halted, E fault illegal`steps 19`\n\
prints|157|157|0|11`22`33`10`|budget ld 0 al 0 sa 0 sd 0 ab 0 eb 0 cq 0`ended 5`steps 28`\n\
prints|158|158|0|11`22`33`44`|budget ld 0 al 0 sa 0 sd 0 ab 0 eb 0 cq 0`ended 5`steps 28`\n\
prints|159|159|0|11`22`33`60`|budget ld 0 al 0 sa 0 sd 0 ab 0 eb 0 cq 0`ended 5`steps 28`\n\
prints|160|160|9|11`22`33`|budget ld 0 al 0 sa 0 sd 0 ab 0 eb 0 cq 0`stuck A halted, E fault illegal`steps 20`\n\
prints|161|161|0|11`22`33`,`|budget ld 0 al 0 sa 0 sd 0 ab 0 eb 0 cq 0`ended 5`steps 28`\n\
prints|162|162|0|11`22`33`44`|budget ld 0 al 0 sa 0 sd 0 ab 0 eb 0 cq 0`ended 5`steps 28`\n\
prints|163|163|9|11`22`33`|budget ld 0 al 0 sa 0 sd 0 ab 0 eb 0 cq 0`stuck A halted, E fault call`steps 21`\n\
prints|164|167|9|11`22`33`|budget ld 0 al 0 sa 0 sd 0 ab 0 eb 0 cq 0`stuck A halted, E fault illegal`steps 21`\n\
prints|168|168|9|11`22`33`44|budget ld 0 al 0 sa 0 sd 0 ab 0 eb 0 cq 0`stuck A halted, E fault illegal`steps 22`\n\
prints|169|169|0|11`22`33`44,|budget ld 0 al 0 sa 0 sd 0 ab 0 eb 0 cq 0`ended 5`steps 28`\n\
prints|170|170|0|11`22`33`44`|budget ld 0 al 0 sa 0 sd 0 ab 0 eb 0 cq 0`ended 5`steps 28`\n\
prints|171|171|0|11`22`33`44\x1a|budget ld 0 al 0 sa 0 sd 0 ab 0 eb 0 cq 0`ended 5`steps 28`\n\
prints|172|172|9|11`22`33`44|budget ld 0 al 0 sa 0 sd 0 ab 0 eb 0 cq 0`stuck A halted, E fault illegal`steps 23`\n\
prints|173|173|0|11`22`33`4410|budget ld 0 al 0 sa 0 sd 0 ab 0 eb 0 cq 0`ended 5`steps 28`\n\
prints|174|174|0|11`22`33`44`|budget ld 0 al 0 sa 0 sd 0 ab 0 eb 0 cq 0`ended 5`steps 28`\n\
prints|175|175|9|11`22`33`44|budget ld 0 al 0 sa 0 sd 0 ab 0 eb 0 cq 0`stuck A halted, E fault call`steps 24`\n\
prints|176|179|9|11`22`33`44|budget ld 0 al 0 sa 0 sd 0 ab 0 eb 0 cq 0`stuck A halted, E fault illegal`steps 24`\n\
prints|180|180|9|11`22`33`44`|budget ld 0 al 0 sa 0 sd 0 ab 0 eb 0 cq 0`stuck A halted, E fault illegal`steps 25`\n\
prints|181|181|0|11`22`33`44`|budget ld 0 al 0 sa 0 sd 0 ab 0 eb 0 cq 0`ended 10`steps 28`\n\
prints|182|182|0|11`22`33`44`|budget ld 0 al 0 sa 0 sd 0 ab 0 eb 0 cq 0`ended 5`steps 28`\n\
prints|183|183|0|11`22`33`44`|budget ld 0 al 0 sa 0 sd 0 ab 0 eb 0 cq 0`ended 21`steps 28`\n\
prints|184|184|9|11`22`33`44`|budget ld 0 al 0 sa 0 sd 0 ab 0 eb 0 cq 0`stuck A halted, E fault illegal`steps 26`\n\
prints|185|185|9|11`22`33`44`\x05|budget ld 0 al 0 sa 0 sd 0 ab 0 eb 0 cq 0`stuck A halted, E fault badpc`steps 28`\n\
prints|186|186|0|11`22`33`44`|budget ld 0 al 0 sa 0 sd 0 ab 0 eb 0 cq 0`ended 5`steps 28`\n\
prints|187|187|9|11`22`33`44`|budget ld 0 al 0 sa 0 sd 0 ab 0 eb 0 cq 0`stuck A halted, E fault call`steps 27`\n\
prints|188|191|9|11`22`33`44`|budget ld 0 al 0 sa 0 sd 0 ab 0 eb 0 cq 0`stuck A halted, E fault illegal`steps 27`";
